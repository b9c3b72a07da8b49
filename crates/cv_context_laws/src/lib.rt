// Laws of contexts: they are of the grammar, well-formed and typed, and their calls are those of the game's instances.
#![tactic(auto)]

pub mod calls;
pub mod free_indices;
pub mod next_games;
pub mod shape;
pub mod types;
pub mod well_formed;
