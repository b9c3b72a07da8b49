// What stands in a context for one node of the game: the calls before a statement, the key's choice, and nothing for a coin.

mod calls;
mod cells;
mod nodes;
mod roles;

pub use calls::Call;
pub use cells::push_cell;
pub use nodes::{answer, put_node};
pub use roles::Roles;
