// The definition of files: the grammar, the rules of names, and the game that a file stands for.
#![tactic(auto)]

pub mod depth;
mod laws;
mod role;
pub mod yields;

pub use laws::{
    declarations_are_distinct, files_are_decided, filling_is_settled, names_are_decided,
    reading_is_exact, refused_files, worked_files,
};
pub use role::{Asked, Region, Role, TypeOption};
