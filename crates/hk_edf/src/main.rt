//! hk_edf: runs a task sheet from standard input, its high jobs by earliest deadlines, and writes its report to standard output.
//! The exit status is the number of how it ended.
//!
//! Of the high jobs that are ready the one with the least deadline goes first. The test by which a sheet is admitted is that of
//! the work that is due: at no time up to the length of the busy period is more of it due than there are ticks (S. Baruah,
//! L. Rosier and R. Howell, Algorithms and Complexity Concerning the Preemptive Scheduling of Periodic, Real-Time Tasks on One
//! Processor, 1990).
#![tactic(auto)]

mod admission;
mod choice;
mod due;
mod laws;
mod refused;
mod report;
#[cfg(test)]
mod tests;
mod tool;

use hk_io::{Status, StdSink, StdSource};
use std::alloc::AllocError;
use std::process::ExitCode;
use std::rt::Env;
use std::{env, io};
use tool::run_edf;

/// The words behind the program's name. Words that aren't Unicode are answered like one word.
fn words(rt: &(impl Env + AllocGlobal)) -> Result<Vec<String>, AllocError> {
    match env::args(rt) {
        Ok(words) => words.skip(1).collect(rt.alloc()),
        Err(error) if error.kind() == io::ErrorKind::OutOfMemory => Err(AllocError),
        Err(_) => {
            let mut words = Vec::new(rt.alloc());
            words.push(String::new(rt.alloc()))?;
            Ok(words)
        }
    }
}

fn main(rt: HostRuntime) -> ExitCode {
    let mut source = StdSource::new(rt.reader());
    let mut sink = StdSink::new(io::writer(&rt));
    let status = match words(&rt) {
        Ok(words) => run_edf(rt.alloc(), words.as_slice(), &mut source, &mut sink),
        Err(AllocError) => Status::Memory,
    };
    ExitCode::from(status.number())
}
