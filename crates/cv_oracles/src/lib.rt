// Oracle files: the tokens of the file for which one stands.
#![tactic(auto)]

mod begins;
mod form;
mod frames;
mod laws;
mod oracles;
mod put;
mod read;
mod reading;
mod region;
mod source;
mod step;
mod words;
mod write;

pub use laws::worked_translation;
pub use source::{Source, read_source};
