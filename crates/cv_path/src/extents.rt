// How large trees are, and how large with another subtree at a place, before it is made.

mod measuring;

pub use measuring::{depth_below, extent_with};
