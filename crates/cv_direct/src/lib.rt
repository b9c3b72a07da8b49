// Steps that close queries, and those that drop bodies of tests, as proposals that the kernel may refuse: what a search found, with its
// terms in the pool.
#![tactic(auto)]

mod proposing;
mod pruning;

pub use proposing::Proposer;
