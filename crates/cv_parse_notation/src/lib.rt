// A notation for grammars: what it means, how it is read, and the laws that join the two.
#![tactic(auto)]

mod script;
mod sign;

pub use script::ScriptWord;
pub use sign::{Mark, Sign};
