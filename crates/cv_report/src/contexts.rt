// The lines of reports that say how often the contexts of steps choose keys and call functions.

mod contexts;
mod laws;

pub use contexts::push_context;
pub use laws::worked_contexts;
