// The text of trees by a table: rows of pieces, which are data of the program, and from which they are also read.
#![tactic(auto)]

mod belonging;
mod items;
mod printing;

pub use printing::push_phrase;
