// The names of a file and of its game, as a list.

mod names;

pub use names::taken_names;
