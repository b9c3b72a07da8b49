// Branches of the finds of right bodies as branches of the next game.

mod branch;
mod cells;
mod key;
mod moving;
mod needed;

pub use branch::branch_front;
