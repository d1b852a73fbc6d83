//! hk_assign: reads a task sheet from standard input, and writes it with its high tasks in an order in which each ends within
//! its deadline, where there is one (N. C. Audsley, Optimal Priority Assignment and Feasibility of Static Priority Tasks with
//! Arbitrary Start Times, 1991). The exit status is the number of how it ended.
#![tactic(auto)]

mod assignment;
mod laws;
mod order;
mod placing;
mod reorder;
#[cfg(test)]
mod tests;
mod tool;

use hk_io::{Status, StdSink, StdSource};
use std::alloc::AllocError;
use std::process::ExitCode;
use std::rt::Env;
use std::{env, io};
use tool::run_assign;

/// The words behind the program's name. Words that aren't Unicode are answered like one word.
fn words(rt: &(impl Env + AllocGlobal)) -> Result<Vec<String>, AllocError> {
    match env::args(rt) {
        Ok(words) => words.skip(1).collect(rt.alloc()),
        Err(error) if error.kind() == io::ErrorKind::OutOfMemory => Err(AllocError),
        Err(_) => {
            let mut words = Vec::new(rt.alloc());
            words.push(String::new(rt.alloc()))?;
            Ok(words)
        }
    }
}

fn main(rt: HostRuntime) -> ExitCode {
    let mut source = StdSource::new(rt.reader());
    let mut sink = StdSink::new(io::writer(&rt));
    let status = match words(&rt) {
        Ok(words) => run_assign(rt.alloc(), words.as_slice(), &mut source, &mut sink),
        Err(AllocError) => Status::Memory,
    };
    ExitCode::from(status.number())
}
