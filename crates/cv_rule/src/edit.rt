// How a game changes by a step: how large the next game is, before the pool is asked for anything, and its nodes.
mod edit;
mod faults;
mod making;
mod measuring;

pub use edit::Edit;
pub use making::make_game;
pub use measuring::measure;
