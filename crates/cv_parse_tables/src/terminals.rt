// The signs of a file: its tokens as the grammar sees them, with numbers in place of names.

mod braces;
mod openings;
mod pass;
mod scripts;

pub use openings::only_parentheses_are_told;
pub use pass::{file_names_stand_outside_braces, more_signs, signs, signs_tell_tokens};
pub use scripts::script_signs;
