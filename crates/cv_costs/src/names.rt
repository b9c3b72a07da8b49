// Where a game names some of its variables: at their sites, where they are read, and in queries of secrecy.
mod names;

pub use names::{is_one_queried, names_one, own_names};
