// The explainer: what a report of the prover names by numbers, in words.
#![tactic(auto)]

mod accepted;
mod following;
mod refused;
mod statuses;
mod top;
mod words;

use cv_outside::{FileShelf, OutSink};
use std::alloc::AllocError;
use std::env;
use std::io::ErrorKind;
use std::process::ExitCode;
use top::run;

/// Explains the file that the words name, and ends with the code with which the prover ends for it.
fn main(rt: HostRuntime) -> ExitCode {
    let alloc = rt.alloc();
    let words: Result<Vec<String>, AllocError> = match env::args(&rt) {
        Ok(args) => args.collect(alloc),
        Err(error) if error.kind() == ErrorKind::OutOfMemory => Err(AllocError),
        Err(_) => Ok(Vec::new(alloc)),
    };
    let Ok(words) = words else {
        return ExitCode::from(6);
    };
    let mut shelf = FileShelf::new(alloc, &rt);
    let mut sink = OutSink::new(alloc, &rt);
    ExitCode::from(run(alloc, &words, &mut shelf, &mut sink))
}
