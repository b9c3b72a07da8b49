// A search for certificates: of correspondences, by what is known at each place of the left event and at each two of them, and of
// secrecy, by what is known at each two copies.
#![tactic(auto)]

mod alternatives;
mod certificates;
mod choosing;
mod entries;
mod pairs;
mod queries;
mod routes;
mod searching;
mod secrets;

pub use certificates::{Certificate, Entry, Pair, Route, SecretPair};
pub use searching::{Effort, direct};
