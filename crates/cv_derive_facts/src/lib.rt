// What a derivation may cite at a place of a game: its facts, and the sites of variables.
#![tactic(auto)]

mod facts;
mod known;
mod laws;
mod processes;
mod sites;

pub use facts::{above_behind, fact};
pub use known::Fact;
pub use laws::{
    facts_hold_where_they_stand, facts_stand_in_the_game, places_have_few_factors,
    sites_stand_in_the_game,
};
pub use processes::behind;
pub use sites::site;
