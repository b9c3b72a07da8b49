// The sites of an equivalence in a game, or why it has none that serve.
#![tactic(auto)]

mod arguments;
mod coins;
mod fault;
pub mod instances;
mod key;
mod matching;
pub mod reads;

pub use fault::MatchFault;
pub use matching::{Match, matches};
