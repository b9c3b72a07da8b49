// Array scope of games.
#![tactic(auto)]

mod binders;
mod checking;
mod enter;
pub mod heads;
mod lasts;
mod names;
mod passed;
mod reads;
mod rules;
mod state;
pub mod tables;
mod terms;
mod walk;

pub use checking::{check, check_with};
pub use names::NameKinds;
