// What one walk over a game sees of it that settling steps may be of: facts, variables, bodies that are not reached, equal bodies,
// terms, and the equalities among these.
#![tactic(auto)]

pub mod comparisons;
pub mod facts;
pub mod keys;
pub mod variables;
pub mod walk;
