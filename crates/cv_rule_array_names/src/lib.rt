// The rule `SArename`: each definition of a variable gets a name of its own. Its row, that both games are
// served alike, its plan, and the new names that are drawn where such a step is found.
#![tactic(auto)]

mod laws;
mod mixed;
mod names;
mod naming;
mod planning;

pub use laws::{split_definitions_serve_alike, worked_splits};
pub use naming::with_drawn;
pub use planning::plan;
