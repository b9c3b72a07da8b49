// Sizes of trees that are known beforehand, so that a walk down to a place doesn't count what it passes.

mod places;
mod sizes;

pub use places::place_in;
pub use sizes::Sizes;
