// What steps cost: sums of chances of collisions and of advantages, with their text.
#![tactic(auto)]

pub mod closings;
mod cost;
pub mod costs;
mod sum;
mod terms;
mod text;

pub use cost::{Collision, Collisions, Cost, Factors};
pub use sum::Sum;
pub use text::{cost_text, listed_text};
