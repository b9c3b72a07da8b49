// The next game of a cryptographic step: a context, with right bodies in place of its calls.
#![tactic(auto)]

mod forms;
mod fronts;
mod game;
mod making;
mod parts;
pub mod pieces;
mod step;

pub use making::next_game;
