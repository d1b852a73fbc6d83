//! henri once more, so that the run of the smallest sheet is stored beside that of the controller: a program stores one run. It
//! takes the same words, runs a task sheet from standard input, and writes its report to standard output. The exit status is
//! the number of how it ended.
#![tactic(auto)]

use hk_io::{Status, StdSink, StdSource};
use hk_top::run_tool;
use std::alloc::AllocError;
use std::process::ExitCode;
use std::rt::Env;
use std::{env, io};

/// The words behind the program's name. Words that aren't Unicode are none that the program takes: they are answered
/// like no words at all.
fn words(rt: &(impl Env + AllocGlobal)) -> Result<Vec<String>, AllocError> {
    match env::args(rt) {
        Ok(words) => words.skip(1).collect(rt.alloc()),
        Err(error) if error.kind() == io::ErrorKind::OutOfMemory => Err(AllocError),
        Err(_) => Ok(Vec::new(rt.alloc())),
    }
}

fn main(rt: HostRuntime) -> ExitCode {
    let mut source = StdSource::new(rt.reader());
    let mut sink = StdSink::new(io::writer(&rt));
    let status = match words(&rt) {
        Ok(words) => run_tool(rt.alloc(), words.as_slice(), &mut source, &mut sink),
        Err(AllocError) => Status::Memory,
    };
    ExitCode::from(status.number())
}
