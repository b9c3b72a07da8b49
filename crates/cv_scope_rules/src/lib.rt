// The rules of types and of array scope: what a typed and scoped game is, which node breaks a rule first, and laws of such games.
#![tactic(auto)]

mod fault;
mod laws;
mod position;
pub mod typing;
pub mod worked;

pub use fault::{Fault, ScopeFault};
pub use laws::{
    game_faults_are_first, nodes_are_decided, scoped_sites_are_apart, tree_faults_are_first,
};
pub use position::Position;
