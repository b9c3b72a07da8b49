// The rule `codef`: a `defined` list gets or loses the cell of an adjacent variable. Its row, its law and its plan.
#![tactic(auto)]

mod adjacent;
pub mod kept;
mod laws;
mod lists;
mod planning;

pub use laws::{
    adjacent_variables_are_assigned_together, codef_is_sound, variables_above_are_assigned_before,
    worked_codefs,
};
pub use planning::plan;
