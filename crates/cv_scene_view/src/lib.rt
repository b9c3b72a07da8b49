// What is there at a place of a game, as steps ask for it, and the test of a whole game.
#![tactic(auto)]

mod games;
mod naming;
pub mod phrases;
mod places;
mod sites;
mod terms;

pub use games::{is_game, is_there};
pub use naming::{is_known, is_new, is_queried, is_type, names};
pub use places::{has_place, is_output_at, part_at};
pub use sites::{first_reading, is_chosen};
pub use terms::{indices_at, is_bool_at, is_term_at, replications_at};
