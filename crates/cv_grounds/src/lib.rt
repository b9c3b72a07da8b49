// What is known at a place of a game, or at two, as a proposal of a proof asks for it: one survey of the game, and the closure of
// the facts there.
#![tactic(auto)]

mod grounds;
mod nodes;
mod pairs;
mod planting;
mod survey;
mod theories;
mod translating;

pub use grounds::{CurrentCell, Grounds};
pub use nodes::{binders, items, nodes_up_to, open};
pub use pairs::{Copies, End};
pub use planting::plant_terms;
pub use survey::{Definition, Event, Known, Link, Part, Side, Survey};
pub use theories::theory_of;
pub use translating::{Given, translate};
