// Libraries of definitions, and what stands for their uses in a file.
#![tactic(auto)]

mod error;
mod expansion;
mod forms;
mod given;
mod heads;
mod laws;
mod library;
mod names;
mod put;
mod read;
mod reading;
mod uses;

pub use error::{ExpandError, GivenError, LibraryError};
pub use expansion::expand;
pub use given::tokens_given;
pub use laws::{given_tokens_are_computed, uses_share_no_names};
pub use library::Library;
