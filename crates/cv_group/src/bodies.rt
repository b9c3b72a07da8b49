// Whether the body of a function of an equivalence names only what is bound there.

mod around;
mod bodies;
mod cells;
mod levels;
mod pairs;

pub use around::Around;
pub use bodies::body_is_bound;
pub use pairs::pair_name;
