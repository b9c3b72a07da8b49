// The cryptographic step: its conditions in a game of a file, its context and its next game.
#![tactic(auto)]

mod applying;
mod contexts;
mod fault;
pub mod games;
mod inlining;
mod instances;
mod naming;
mod planning;
mod room;
mod sorts;
mod testing;

pub use applying::apply;
pub use fault::{CryptoFault, Failure};
pub use instances::Instances;
pub use planning::{Basis, plan};
