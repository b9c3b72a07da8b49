// Why a query is open: what is known at the places of its left event, and what isn't.
#![tactic(auto)]

mod closed;
mod facts;
mod opens;
mod places;

pub use facts::facts_of;
pub use opens::say_open;
