// What the next game of a cryptographic step is made of: indices and draws in order, pairs of finds, branches and results.
#![tactic(auto)]

pub mod branches;
pub mod calls;
pub mod listing;
pub mod pairs;
pub mod results;
