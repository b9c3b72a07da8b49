// What steps cost, and the sums of costs.

mod costs;
mod sums;

pub use costs::advantage;
pub use sums::Sums;
