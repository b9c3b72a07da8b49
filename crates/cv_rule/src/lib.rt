// The steps that keep every chance: their conditions, and how a game changes by one.
#![tactic(auto)]

pub mod edit;
mod lines;
mod listing;
mod rewriting;
mod rules;
mod targets;

pub use rules::{Rule, conditions, stands, unmet};
