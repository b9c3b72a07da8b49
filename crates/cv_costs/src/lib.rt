// Products of parameters as factors, costs of collisions with them, and variables that are chosen at random from large types; where a game
// names variables, what a run doesn't read, and when terms may change at several places.
#![tactic(auto)]

mod certificates;
mod large;
mod laws;
pub mod names;
mod products;
pub mod quiet;
mod variables;
pub mod wording;

pub use certificates::cost_of_certificate;
pub use large::{are_increasing, first_other_site, is_large};
pub use laws::factors_have_the_value;
pub use products::{collision_of, cost_of_copies, cost_of_pairs, factors_of, order_of};
pub use variables::{parameters_of, type_of};
