// The game that a process stands for: plain reads get their indices, and plain channels the current ones.

mod context;
mod current;
mod filling;
mod measuring;
mod reads;
mod sites;
mod writing;

pub use filling::fill;
pub use measuring::measure;
