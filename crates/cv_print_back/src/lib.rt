// The text of a game or of a term is read back as that game or term.
#![tactic(auto)]

pub mod files;
mod laws;

pub use laws::{games_come_back, reading_games_is_exact, reading_terms_is_exact, terms_come_back};
