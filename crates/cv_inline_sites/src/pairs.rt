// The pairs of a site and a right branch for which the finds of the next game have branches.

mod branches;
mod indices;
mod pairs;
mod scopes;

pub use indices::drawn_indices;
pub use pairs::{Pair, pairs_with};
pub use scopes::{branch_scope, copy_of, with_name};
