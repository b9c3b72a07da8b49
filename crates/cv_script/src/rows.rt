// The table of scripts: the rows from which steps are read and printed.

mod rows;

pub use rows::{SCRIPT, STEP, script_rows};
