// Games without a `let`, where each read of its variable is its term at the read's indices: what the `let` assigns, how large
// the next game is, before the pool is asked for anything, and its nodes.

mod assigned;
mod given;
mod making;
mod putting;
mod under;

pub use assigned::{Assigned, only_assignment};
pub use making::{make_unletting, measure_unletting};
