// Games in which each definition of a variable has a name of its own: how large they are, and their nodes.
#![tactic(auto)]

mod around;
mod branches;
mod cells;
mod heads;
mod making;
mod measuring;
mod naming;
mod splitting;
mod terms;

pub use cells::is_cell_of;
pub use making::{make_splitting, measure_splitting};
pub use naming::places;
