// Lists with tables: the variables that are defined above a node, and the cells that are listed around it.

mod defined;
mod listed;
mod places;

pub use defined::Defined;
pub use listed::Listed;
