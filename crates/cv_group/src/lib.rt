// Which equivalences of a file are accepted.
#![tactic(auto)]

pub mod bodies;
mod checking;
mod fault;
mod names;
mod reads;
pub mod shapes;
mod sides;
mod symbols;

pub use checking::{check, check_all};
pub use fault::{EquivFault, GroupFault};
