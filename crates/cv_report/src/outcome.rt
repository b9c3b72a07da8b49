// How a run ends: the report of a run without a file, and the writing of a report.

mod fetched;
mod outcome;
mod without_file;

pub use fetched::fetch_status;
pub use outcome::{Outcome, out_of_memory, write};
pub use without_file::refused;
