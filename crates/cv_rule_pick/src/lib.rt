// The rule `pick`: a `find` of one branch whose indices are known becomes its body. Its row, and how the step changes a game.
#![tactic(auto)]

mod branches;
mod cells;
mod indices;
mod others;
mod planning;
mod putting;
mod scope;
mod targets;

pub use planning::{Derivations, plan};
