// Games with another name in the place of a variable's: how large they are, for how many nodes the pool is asked, and their
// nodes.

mod chain;
mod counting;
mod heads;
mod making;
mod measuring;

pub use making::make_renaming;
pub use measuring::measure_renaming;
