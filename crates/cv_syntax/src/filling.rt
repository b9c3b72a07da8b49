// A work that was filled with a file, or is empty again.

mod filling;

pub use filling::{empty_again, own_all_names};
