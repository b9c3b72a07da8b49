// Lines of derivations: which there are, how many, and what the last ones say.
#![tactic(auto)]

pub mod citing;
mod ends;
mod lines;
pub mod terms;

pub use ends::{ends_in, ends_with, last_claim};
pub use lines::{Claim, Line, claim_of, count, line_of};
