//! hk_openings: opens the heaps that its words name, uses each a little, and prints a line for each. It is there to be refused
//! memory: it writes nothing before all of them were opened and used, so what found no memory writes nothing. The exit status
//! is the number of how it ended.
#![tactic(auto)]

mod opening;
mod owned;
mod shared;
#[cfg(test)]
mod tests;

use hk_io::{Status, StdSink, put_all};
use opening::{Opening, Unopened};
use std::alloc::Global;
use std::process::ExitCode;
use std::rt::Env;
use std::{env, io};

/// What is written for other words.
const USAGE: &str = "usage: hk_openings core, owned, heap, plan, plain\n";

/// The lines of the heaps that the words name, in their order.
fn lines(alloc: Global, words: &[String]) -> Result<String, Unopened> {
    let mut text = String::new(alloc);
    for word in words {
        let opening = Opening::named(word.as_str()).ok_or(Unopened::Word)?;
        text.push_str(opening.line(alloc)?.as_str())?;
    }
    Ok(text)
}

/// The words behind the program's name. Words that aren't Unicode name nothing.
fn words(rt: &(impl Env + AllocGlobal)) -> Result<Vec<String>, Unopened> {
    match env::args(rt) {
        Ok(words) => Ok(words.skip(1).collect(rt.alloc())?),
        Err(error) if error.kind() == io::ErrorKind::OutOfMemory => Err(Unopened::Memory),
        Err(_) => Err(Unopened::Word),
    }
}

/// Writes a text, and answers how the program ends where the text was written.
fn told(rt: &impl Print, text: &str, status: Status) -> Status {
    let mut sink = StdSink::new(io::writer(rt));
    match put_all(&mut sink, text.as_bytes()) {
        Ok(()) => status,
        Err(_) => Status::WriteFault,
    }
}

fn main(rt: HostRuntime) -> ExitCode {
    let text = words(&rt).and_then(|words| lines(rt.alloc(), words.as_slice()));
    let status = match text {
        Ok(text) => told(&rt, text.as_str(), Status::Done),
        Err(Unopened::Memory) => Status::Memory,
        Err(Unopened::Word) => told(&rt, USAGE, Status::Usage),
    };
    ExitCode::from(status.number())
}
