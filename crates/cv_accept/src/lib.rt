// Files: which bytes are one, and what is checked of them.
#![tactic(auto)]

mod error;
mod file;
mod laws;
mod numbers;
mod scoping;

pub use error::FileError;
pub use file::{Accepted, read};
pub use laws::{accepted_is_well_formed, file_is_computed};
