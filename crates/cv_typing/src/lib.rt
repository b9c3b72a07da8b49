// Types of terms, games and files.
#![tactic(auto)]

mod above;
mod alone;
mod arrays;
mod below;
mod checking;
mod faults;
mod function;
mod locals;
mod parts;
mod terms;
mod walk;

pub use alone::{is_typed_game, is_typed_term};
pub use arrays::Arrays;
pub use below::wants_below;
pub use checking::{check, check_game};
pub use faults::own_fault;
pub use locals::{Locals, Own};
pub use terms::{function_sort, sort_of_term};
