// The interpreter of rows and the rows of files, and what every reader stands on: tokens, levels, and the parts of
// trees.
#![tactic(auto)]

mod interpreter;
mod lookahead;
mod marked;
mod phrases;
mod piece;
mod tokens;
mod trail;

pub use interpreter::{read_table, short, taken};
pub use lookahead::{
    ReadError, begins_term, expect, is_at, is_find_at, is_script_word_at, is_unnamed_at,
    is_word_at, is_zero_at, open, shallow,
};
pub use marked::enter_marked;
pub use phrases::{enter, enter_with_names, term};
pub use piece::{Ahead, Closing, Naming, Pairing, Piece};
pub use tokens::{find_word, note, number, script_word, unnamed, word, zero};
pub use trail::{NameUse, Trail, close_chain};
