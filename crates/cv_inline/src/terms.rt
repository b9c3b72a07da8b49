// Terms of right bodies as terms of the next game: their parts, from the bottom.

mod caller;
mod calling;
mod drawn;
mod parts;
mod reading;
mod scope;
mod terms;

pub use caller::Caller;
pub use calling::Calling;
pub use drawn::{Drawing, Index};
pub use parts::{copy, lone, nothing, put};
pub use reading::{own_variable, read_here, read_tuple};
pub use scope::{Entry, Standing};
pub use terms::in_game;
