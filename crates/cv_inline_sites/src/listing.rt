// What is drawn for the next game, in order, and trees with their places.

mod branches;
mod draws;
mod indices;
mod once;
mod subtree;

pub use draws::{Draw, Role, add_arguments, add_variable};
pub use indices::{add_branch_indices, add_indices};
pub use once::add_each_once;
pub use subtree::{Parent, Subtree, node_at};
