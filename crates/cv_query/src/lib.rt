// The test of a certificate: which condition fails first, and at which place.
#![tactic(auto)]

mod claims;
mod ends;
pub mod kinds;
mod pairs;
mod right;
mod secrets;
mod testing;

pub use testing::{Failure, check};
