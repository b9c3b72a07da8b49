// Reading of declarations, of each kind and one after another, and of whole files: declarations, a proof block and a
// process.
#![tactic(auto)]

mod blocks;
mod choice;
mod equivalences;
mod file;
pub mod processes;
pub mod signature;

pub use choice::{begins_decl, decls};
pub use file::{Reading, read};
