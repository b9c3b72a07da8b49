// What the program reads and writes: the words of its command, sample files, named files, and a sink of bytes, in memory or real.
#![tactic(auto)]

mod real;
mod shelf;
mod sink;
pub mod words;

pub use real::{FileShelf, OutSink};
pub use shelf::{FetchError, MemShelf, Shelf, SureShelf};
pub use sink::{MemSink, PutError, Sink, SureSink};
