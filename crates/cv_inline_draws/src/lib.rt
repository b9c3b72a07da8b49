// What is drawn for the next game of a cryptographic step: the names that are taken, the new ones, and the calls that get them.
#![tactic(auto)]

pub mod callings;
pub mod drawing;
pub mod names;
pub mod sites;
pub mod taken_names;
