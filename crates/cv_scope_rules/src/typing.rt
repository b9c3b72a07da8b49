// The rules of typing: what a typed game and a typed file are, which node breaks a rule first, and laws of both.
mod fault;
mod form;
mod laws;
mod precedence;
mod want;

pub use fault::{Fault, TypeFault};
pub use form::Form;
pub use laws::{
    file_faults_are_first, game_faults_are_first, tree_faults_are_first, worked_files, worked_games,
};
pub use precedence::Precedence;
pub use want::Want;
