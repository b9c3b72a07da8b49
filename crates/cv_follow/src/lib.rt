// What leads from a game on: the steps of a script, one after another, as long as these are accepted, and in place of a script,
// or of the word `simplify`, those that are found.
#![tactic(auto)]

mod filling;
mod rehearsing;
mod searching;
mod walk;

pub use filling::follow_block;
pub use rehearsing::search;
pub use walk::Walk;
