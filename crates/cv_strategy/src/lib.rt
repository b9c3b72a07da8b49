// The order in which steps are proposed: those that settle the game, those that close queries, and moves. A search with further moves is
// rehearsed: which costly steps it leaves out, since the same queries are closed without them, up to smaller sums.
#![tactic(auto)]

pub mod moves;
mod rehearsals;
mod scores;
mod sparing;
mod strategy;

pub use rehearsals::{MOST_REHEARSALS, Rehearsals};
pub use sparing::{CostlyStep, Spared};
pub use strategy::{MOST_NODES, Strategy};
