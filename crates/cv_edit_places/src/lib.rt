// The next games of steps: how large they are, before the pool is asked for anything, and their nodes.
#![tactic(auto)]

mod building;
mod change;
mod dropping;
mod making;
mod measuring;
mod parts;
mod plan;
mod terms;

pub use change::Change;
pub use dropping::{drop_variable, measure_without};
pub use making::make_game;
pub use measuring::measure;
pub use parts::{Part, Parts};
pub use plan::{Failure, Priced};
pub use terms::{has_site, has_term_at, is_term, parts_within};
