// Derivations at a place of a game, or at two: which line is the first that isn't right, and whether the last are the targets.
#![tactic(auto)]

mod checking;
mod defined;
mod facts;
mod indices;
mod known;
mod laws;
mod pairs;
mod reasons;
mod seconds;
mod sight;
mod sites;
pub mod worked;

pub use checking::{DeriveFault, check};
pub use laws::searched_lines_are_visible;
pub use pairs::first_bad_of_pair;
pub use sight::Second;
