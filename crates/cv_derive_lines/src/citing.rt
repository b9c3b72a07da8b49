// What the line of a derivation cites: what a number says, looked for from lines that are kept.

mod bookmarks;
mod citing;

pub use bookmarks::Bookmarks;
pub use citing::{Citing, cited_cell, cited_claim, cited_term, number};
