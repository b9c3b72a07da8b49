// Names without repeats, each with its number.
mod names;

pub use names::{NameError, NameId, Names};
