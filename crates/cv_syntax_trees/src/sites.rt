// Sorts of variables, and where the variables of a game are bound: what these are, apart from how they are found.
mod sort;

pub use sort::{Sort, differs_from, same_sort};
