// What the bodies of functions begin with, for a test of a term's head before any body is compared with the term.

mod heads;

pub use heads::{Heads, is_head};
