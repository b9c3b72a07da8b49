// A writer of steps: what a step, its certificate and its derivations say, as plain data, and their trees in the pool.
#![tactic(auto)]

mod certificates;
mod lines;
mod parts;
mod proposals;
mod terms;
mod writing;

pub use certificates::{Certificate, Entry, Pair, Route, SecretPair};
pub use lines::{Line, Reason};
pub use proposals::{Body, Proposal};
pub use terms::write_term;
pub use writing::{write, write_lines};
