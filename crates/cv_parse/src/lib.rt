// Files, from their tokens: the grammar, the rules of names, the limits, and the trees in a pool. Beside them
// games and terms, read with the names and declarations that are there.
#![tactic(auto)]

mod building;
mod declaring;
mod error;
mod files;
mod games;
mod laws;
mod measuring;
mod naming;
mod planting;
mod reading;
mod terms;
mod weights;

pub use error::ParseError;
pub use files::file;
pub use games::game;
pub use laws::parsing_is_exact;
pub use terms::term;
