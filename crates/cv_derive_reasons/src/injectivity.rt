// Functions with `[data]`: a term says that they have one value at equal arguments alone.

mod data;

pub use data::is_injective;
