// Trees of the calculus in a pool, names and declarations.
#![tactic(auto)]

mod building;
pub mod children;
mod compare;
mod decls;
pub mod faults;
pub mod filling;
mod kind;
mod layout;
pub mod limits;
pub mod listing;
mod make;
mod open;
pub mod parts;
mod planting;
mod walk;
mod work;

pub use building::{build, built_children};
pub use compare::same;
pub use cv_pool::names::{NameError, NameId, Names};
pub use cv_pool::{Kind, Mark, NodeId, Pool, PoolError};
pub use cv_syntax_trees::{Class, Code, Head};
pub use decls::{Decl, Decls, query_at};
pub use kind::{head_of, kind_of};
pub use make::Make;
pub use open::{Opened, read_node};
pub use planting::plant;
pub use walk::{child, depth, size};
pub use work::{BuildError, File, Game, Work};
