// Laws of the runs of contexts: they are served as their games, with cells of the tape swapped, and visited as next games expect.
#![tactic(auto)]

pub mod instances;
pub mod service;
pub mod visits;
