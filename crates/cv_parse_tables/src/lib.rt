// One reader for grammars that are tables: rows of pieces, which are data of the program.
#![tactic(auto)]

mod fronts;
mod piece;
mod reading;
pub mod spelling;
pub mod terminals;
mod trees;
mod worked;

pub use fronts::{begins, begins_at, may_vanish};
pub use piece::{Outer, Piece};
pub use reading::phrase;
pub use trees::{close_all, close_over};
pub use worked::{block, worked_readings};
