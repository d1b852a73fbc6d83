//! hk_replay: checks the log of an interleaving of the heap's steps, which it reads from standard input, or makes one. The
//! exit status is the number of how it ended.
#![tactic(auto)]

mod draws;
mod judge;
mod laws;
mod lex;
mod log_line;
mod machine;
mod make;
mod printing;
mod reading;
mod replayed;
#[cfg(test)]
mod tests;
mod tool;

use hk_io::{StdSink, StdSource};
use replayed::Replayed;
use std::alloc::AllocError;
use std::process::ExitCode;
use std::rt::Env;
use std::{env, io};
use tool::run_replay;

/// The words behind the program's name. Words that aren't Unicode are none that the program takes: they are answered
/// like no words at all.
fn words(rt: &(impl Env + AllocGlobal)) -> Result<Vec<String>, AllocError> {
    match env::args(rt) {
        Ok(words) => words.skip(1).collect(rt.alloc()),
        Err(error) if error.kind() == io::ErrorKind::OutOfMemory => Err(AllocError),
        Err(_) => Ok(Vec::new(rt.alloc())),
    }
}

fn main(rt: HostRuntime) -> ExitCode {
    let mut source = StdSource::new(rt.reader());
    let mut sink = StdSink::new(io::writer(&rt));
    let replayed = match words(&rt) {
        Ok(words) => run_replay(rt.alloc(), words.as_slice(), &mut source, &mut sink),
        Err(AllocError) => Replayed::Memory,
    };
    ExitCode::from(replayed.number())
}
