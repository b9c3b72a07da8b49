// The laws of the steps that cite derivations: `prune`, `rewrite` and `unlet`.
#![tactic(auto)]

pub mod pruning;
pub mod rewriting;
pub mod unletting;
