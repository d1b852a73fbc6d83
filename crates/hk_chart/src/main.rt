//! hk_chart: draws the trace of a run, which it reads from standard input, as one SVG. The exit status is the number of how it
//! ended.
#![tactic(auto)]

mod caption;
mod chart;
mod charted;
mod drawing;
mod laws;
mod lex;
mod picture;
mod progress;
mod reader;
mod reading;
mod shape;
mod span;
mod task;
#[cfg(test)]
mod tests;
mod text;
mod tool;
mod trace_line;
mod window;

use charted::Charted;
use hk_io::{StdSink, StdSource};
use std::alloc::AllocError;
use std::process::ExitCode;
use std::rt::Env;
use std::{env, io};
use tool::run_chart;

/// The words behind the program's name. Words that aren't Unicode are none that the program takes: they are answered
/// like a word that it doesn't know.
fn words(rt: &(impl Env + AllocGlobal)) -> Result<Vec<String>, AllocError> {
    match env::args(rt) {
        Ok(words) => words.skip(1).collect(rt.alloc()),
        Err(error) if error.kind() == io::ErrorKind::OutOfMemory => Err(AllocError),
        Err(_) => {
            let mut unknown = Vec::new(rt.alloc());
            unknown.push(String::new(rt.alloc()))?;
            Ok(unknown)
        }
    }
}

fn main(rt: HostRuntime) -> ExitCode {
    let mut source = StdSource::new(rt.reader());
    let mut sink = StdSink::new(io::writer(&rt));
    let charted = match words(&rt) {
        Ok(words) => run_chart(rt.alloc(), words.as_slice(), &mut source, &mut sink),
        Err(AllocError) => Charted::Memory,
    };
    ExitCode::from(charted.number())
}
