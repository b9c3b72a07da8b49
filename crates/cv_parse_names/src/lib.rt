// The rules of names in one pass from left to right, over a table of what is known of each name.
#![tactic(auto)]

mod fault;
pub mod indices;
mod rules;
mod table;

pub use fault::{NameFault, name_fault};
