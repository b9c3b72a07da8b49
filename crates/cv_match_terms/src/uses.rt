// What a game does with each of its variables: how often it uses it, and how it defines it.

mod entry;
mod heads;
mod numbers;
mod table;

pub use heads::{is_reading, pass_replication};
pub use numbers::uses;
pub use table::UseTable;
