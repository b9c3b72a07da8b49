// Games that change everywhere: without a body, under another name, and with a term in place of a variable.
#![tactic(auto)]

mod faults;
pub mod pruning;
pub mod renaming;
pub mod unletting;
