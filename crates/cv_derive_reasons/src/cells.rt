// Cells with terms for names, the cells that a construct directly defines, and the only definition of a cell's variable.

mod cells;
mod defined;
mod variables;

pub use cells::{front, is_cell_under};
pub use defined::{defines, own_behind};
pub use variables::{only_definition, replications_of, variable};
