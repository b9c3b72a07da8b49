// Sentences on games: their text with places, which keys there are, steps that are refused, and remarks.
#![tactic(auto)]

mod games;
mod keys;
mod remarks;
mod scenes;
mod sizes;
mod steps;

pub use games::{Listing, listing_of};
pub use keys::{Context, Pair, context_of, pairs_of, say_pair};
pub use remarks::say_remarks;
pub use scenes::{Scene, is_small};
pub use steps::say_refused;
