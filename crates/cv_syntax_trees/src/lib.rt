// Trees of the calculus, apart from where they stand: heads, classes of names, declarations, and where a tree defines
// variables, of which sorts; with laws of lists, options and truth values that all crates cite.
#![tactic(auto)]

mod class;
mod head;
pub mod lists;
pub mod sites;

pub use class::Class;
pub use head::{Code, Head};
