// Terms of a statement with results of calls in place of their answers.

mod more;
mod outcome;
mod statement;

pub use more::with_newest;
pub use outcome::Outcome;
pub use statement::with_results;
