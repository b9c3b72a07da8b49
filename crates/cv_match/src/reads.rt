// Where a term or a condition of a game reads a variable, whether it is a variable's cell, and whether a game uses a variable as
// often as a function uses a coin.

mod arguments;
mod cells;
mod coins;
mod conditions;

pub use arguments::argument_use;
pub use cells::is_cell;
pub use coins::is_used_as_often;
pub use conditions::condition_use;
