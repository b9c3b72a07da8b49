// Heads that define a variable by themselves.

mod heads;

pub use heads::variable_of;
