// The law of the left side: a game has the chances of its context, where the left side answers the calls.
#![tactic(auto)]

pub mod cells;
pub mod refusals;
