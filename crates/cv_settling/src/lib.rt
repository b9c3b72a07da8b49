// Steps that settle a game, in the order of the strategy, as proposals that the kernel may refuse: bodies that are not reached,
// tests with equal bodies, variables that nothing names, `let`s that are read once, terms that an equation makes smaller, and
// equalities that hold by chance alone.
#![tactic(auto)]

mod checking;
mod collisions;
mod equations;
mod matching;
mod measure;
mod merge;
mod parts;
mod prune;
mod rewrite;
mod stop;
mod suggesting;
mod tally;
mod terms;
mod truths;
mod types;
mod unlet;
mod unnew;

pub use checking::is_proposal_below;
pub use collisions::Chance;
pub use stop::Stop;
pub use suggesting::suggest;
pub use terms::{Given, made, put};
