//! henri_race: does the scripts of a task sheet from standard input on threads, over one heap and beside its collector, and
//! writes what they come to to standard output. The exit status is the number of how it ended.
#![tactic(auto)]

use hk_io::{Status, StdSink, StdSource};
use hk_race::{Open, race};
use std::alloc::AllocError;
use std::process::ExitCode;
use std::rt::Env;
use std::{env, io};

/// The words behind the program's name. Words that aren't Unicode are answered like an empty one: the program takes none.
fn words(rt: &(impl Env + AllocGlobal)) -> Result<Vec<String>, AllocError> {
    match env::args(rt) {
        Ok(words) => words.skip(1).collect(rt.alloc()),
        Err(error) if error.kind() == io::ErrorKind::OutOfMemory => Err(AllocError),
        Err(_) => {
            let mut words = Vec::new(rt.alloc());
            words.push(String::new(rt.alloc()))?;
            Ok(words)
        }
    }
}

fn main(rt: HostRuntime) -> ExitCode {
    let mut source = StdSource::new(rt.reader());
    let mut sink = StdSink::new(io::writer(&rt));
    let status = match words(&rt) {
        Ok(words) => {
            let words = words.as_slice();
            race(&rt, rt.alloc(), words, &mut source, &mut sink, &Open).status
        }
        Err(AllocError) => Status::Memory,
    };
    ExitCode::from(status.number())
}
