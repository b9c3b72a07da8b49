// How large and how deep a next game is, before it is made.
#![tactic(auto)]

mod added;
mod bodies;
mod calls;
mod found;
mod game;
mod measuring;
mod next;
mod parts;
mod setting;
mod terms;
mod trees;

pub use calls::place_of_site;
pub use next::measure;
