// The rule `merge`: a construct whose bodies are all equal becomes its body. Its row, its law and its plan.
mod bodies;
mod laws;
mod naming;
mod planning;

pub use laws::{merging_is_sound, worked_merges};
pub use planning::plan;
