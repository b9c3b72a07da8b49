// Where a game first offends against the forms of a variable's secrecy, and the copies that a variable is of others.
#![tactic(auto)]

mod cells;
mod copies;
mod definitions;
mod offences;
mod reads;
mod sources;

pub use cells::{CellCopy, copies_of};
pub use offences::{
    first_definition, first_offence_of_choices, first_offence_of_copies, starts_by_let,
};
