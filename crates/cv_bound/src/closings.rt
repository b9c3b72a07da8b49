// The queries that steps have closed, each with the sum of the costs of the steps before.

mod queries;

pub use queries::{ClosedQueries, ClosedQuery};
