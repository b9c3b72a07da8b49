// The text of games and terms.
#![tactic(auto)]

mod games;
mod lines;
mod steps;
mod terms;
mod words;

pub use games::{game_text, push_game};
pub use terms::{push_term, push_terms, term_text};
pub use words::{push_decimal, push_name};
