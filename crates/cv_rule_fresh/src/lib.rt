// The rule `fresh`: an equality of a value that is chosen at random with a term that was known before is taken to be false. Its row,
// its laws and its plan.
#![tactic(auto)]

mod cells;
mod choices;
pub mod collisions;
mod laws;
mod planning;
mod reach;
mod sides;

pub use laws::{fresh_is_sound, fresh_values_are_missed};
pub use planning::plan;
