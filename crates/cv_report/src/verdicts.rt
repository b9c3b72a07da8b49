// What a report says of the queries of a file whose proof block was followed: verdicts, and the end.

mod verdicts;

pub use verdicts::{end_of, verdicts_of};
