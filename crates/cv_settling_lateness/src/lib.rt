// Which variables come later than a place of a game, and what parts two of its places: by a table of the game's definitions and one of
// the sizes of its trees, so that a question takes a walk down to the place.
#![tactic(auto)]

mod definitions;
mod lateness;
mod laws;
mod parting;
mod sizes;

pub use lateness::Lateness;
pub use laws::late_at_a_body;
