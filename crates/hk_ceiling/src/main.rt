//! hk_ceiling: runs a task sheet from standard input, whose high jobs have critical sections under immediate ceilings, and
//! writes its report to standard output. Each word tells a section. The exit status is the number of how it ended.
//!
//! The rule is the immediate form of the priority ceiling protocol (L. Sha, R. Rajkumar and J. Lehoczky, Priority Inheritance
//! Protocols: An Approach to Real-Time Synchronization, 1990).
#![tactic(auto)]

mod admission;
mod admitted;
mod ceilings;
mod choice;
mod laws;
mod order;
mod refused;
mod responses;
#[cfg(test)]
mod tests;
mod told;
mod tool;
mod words;

use hk_io::{Status, StdSink, StdSource};
use std::alloc::AllocError;
use std::process::ExitCode;
use std::rt::Env;
use std::{env, io};
use tool::run_ceiling;

/// The words behind the program's name. Words that aren't Unicode tell no sections: they are answered like an empty word.
fn command_line(rt: &(impl Env + AllocGlobal)) -> Result<Vec<String>, AllocError> {
    match env::args(rt) {
        Ok(words) => words.skip(1).collect(rt.alloc()),
        Err(error) if error.kind() == io::ErrorKind::OutOfMemory => Err(AllocError),
        Err(_) => {
            let mut words = Vec::new(rt.alloc());
            words.push(String::new(rt.alloc()))?;
            Ok(words)
        }
    }
}

fn main(rt: HostRuntime) -> ExitCode {
    let mut source = StdSource::new(rt.reader());
    let mut sink = StdSink::new(io::writer(&rt));
    let status = match command_line(&rt) {
        Ok(words) => run_ceiling(rt.alloc(), words.as_slice(), &mut source, &mut sink),
        Err(AllocError) => Status::Memory,
    };
    ExitCode::from(status.number())
}
