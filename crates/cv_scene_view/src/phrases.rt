// The phrases of the grammar of games, by one table.

mod phrases;

pub use phrases::{Phrase, is_phrase, parts};
