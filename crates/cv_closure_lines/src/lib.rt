// Derivations of what follows in a closure: lines with their reasons, over a table of terms.
#![tactic(auto)]

mod lines;
mod scribe;
mod targets;

pub use lines::{Claim, Derivation, Line, Reason};
pub use targets::{MOST_LINES, Target, all_follow, copied, derive, derive_late, follows};
