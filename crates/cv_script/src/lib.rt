// Steps of a proof, with their certificates and derivations: their text, and views of their items.
#![tactic(auto)]

pub mod reader;
pub mod rows;
mod steps;
mod views;

pub use steps::{Certificate, Derivation, Step, push_step, step_text};
pub use views::{Part, StepView, view};
