// The words of a command: what they ask for, read with `clap`.
mod app;
mod laws;
pub mod sample;
mod words;

pub use laws::plain_forms_are_read;
pub use words::{Request, command};
