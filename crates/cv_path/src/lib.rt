// Places of a tree: the node at a place, its copies, what it defines, and the tree with another subtree there.
#![tactic(auto)]

mod counting;
mod definitions;
mod error;
pub mod extents;
mod laws;
mod place;
mod product;
mod replacing;

pub use counting::{copies, guards};
pub use definitions::{is_bound, is_definition};
pub use error::PathError;
pub use laws::{places_are_below_the_size, worked_copies};
pub use place::{Lies, at, place_in, size_below};
pub use product::Product;
pub use replacing::{Turn, Way, push, rebuilt, way_to};
