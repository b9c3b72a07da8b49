// How the marks of files and the words of scripts are written.

mod marks;
mod words;

pub use marks::{spelled, spelling, spelling_is_unique};
pub use words::{word_of_text, word_spelling, word_spelling_is_unique};
