// Laws of scripts: what is read by the table of scripts is what its forms spell, and each step that is read has its items.

mod laws;

pub use laws::{scripts_are_decided, steps_have_items};
