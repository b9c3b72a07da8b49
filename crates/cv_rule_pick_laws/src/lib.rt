// The law of the rule `pick`, and small games with their picks.
#![tactic(auto)]

mod laws;

pub use laws::{picking_is_sound, worked_picks};
