// Reports: what was done, the text of it, and its writing.
#![tactic(auto)]

pub mod contexts;
mod flow;
mod lines;
pub mod outcome;
mod printed;
mod report;
mod stream;
mod text;
pub mod verdicts;

pub use flow::{Flow, is_streamed};
pub use printed::rest_text;
pub use report::{Cause, Command, Entry, FileFault, Report, Status, Verdict, Which};
pub use stream::Stream;
