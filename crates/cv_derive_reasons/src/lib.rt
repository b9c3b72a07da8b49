// What lines of derivations follow from: the terms alone, cells and their only definitions, variables that come later, sizes, `[data]`, and equations of truth values.
#![tactic(auto)]

pub mod cells;
pub mod inferences;
pub mod injectivity;
pub mod late;
pub mod sizes;
pub mod substitution;
pub mod truths;
