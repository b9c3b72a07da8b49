// The tree that stands in the next game for a call, as pieces among which its results stand.

mod bodies;
mod calls;
mod choices;
mod kinds;
mod piece;

pub use calls::pieces_of;
pub use piece::{Front, Phrase, Piece};
