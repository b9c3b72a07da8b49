// The parts of trees, one behind another in postorder.

mod lists;
mod trees;

pub use lists::{close_list, push_chain, push_leaf};
pub use trees::{close, push_tree};
