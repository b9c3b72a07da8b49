// The limits of games and of the pool: how large a game may be, and one tree of parts, where the pool has room for it.

mod games;
mod planting;

pub use games::{Extent, check_limits};
pub use planting::plant_tree;
