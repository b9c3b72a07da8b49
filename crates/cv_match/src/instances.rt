// The instances of an equivalence's left side in a game, and reads of the key outside them.

mod calls;
mod gathering;
mod instances;
mod outside;

pub use calls::{call_at, is_call};
pub use gathering::sites;
pub use instances::is_instance;
pub use outside::outside_use;
