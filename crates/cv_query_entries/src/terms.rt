// Terms of a query at a place of a game: what is put for its names isn't carried out, and nothing is built.

mod given;
mod sides;

pub use given::{Found, Given, Part, PartNode, read_part, same_part};
pub use sides::{leaf_name, right_alone};
