// The games that steps lead to: their test, and the nodes that a refused one gives back.

mod settling;
mod testing;

pub use settling::{settle, settle_names};
pub use testing::{Next, next_at};
