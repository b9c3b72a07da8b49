// A pool of nodes of binary trees, in which each tree has one node, with marks to go back to, and a table of names, in which each
// text has one number.
#![tactic(auto)]

mod bucket;
mod chains;
pub mod names;
mod node;
mod numbers;
mod pool;

pub use node::{Kind, Mark, NodeId};
pub use numbers::numbers_are_stable;
pub use pool::{Pool, PoolError};
