//! What is due, which row is chosen, what sheets are answered, and what the program writes.
mod demands;
mod rows;
mod runs;
mod sheets;
mod streams;

use crate::tool::run_edf;
use hk_io::{MemSink, MemSource, Status, Trial};
use std::alloc::{AllocError, Global};
use std::process::Abort;

/// How a run ended, and its source and sink.
#[derive(Drop)]
struct Ended {
    status: Status,
    source: MemSource,
    sink: MemSink,
}

/// Runs some words on an input, where the calls with these numbers fail, and the sink has so much room.
fn run(
    alloc: Global,
    words: &[&str],
    input: &str,
    fails: (&[u64], &[u64]),
    room: usize,
) -> Result<Ended, AllocError> {
    let Trial {
        words,
        mut source,
        mut sink,
    } = Trial::new(alloc, words, input.as_bytes(), fails, room)?;
    let status = run_edf(alloc, words.as_slice(), &mut source, &mut sink);
    Ok(Ended {
        status,
        source,
        sink,
    })
}

/// Compares how a run ended, and what it wrote.
fn expect_end(rt: &impl Abort, ended: &Ended, status: Status, text: &str) {
    assert_eq!(rt;
        (ended.status, ended.sink.bytes()),
        (status, text.as_bytes())
    );
}

/// Compares what is written for an input, and how the program ends, where the calls with these numbers fail, and the sink has so
/// much room.
fn expect_run(
    rt: &impl Abort,
    alloc: Global,
    input: &str,
    fails: (&[u64], &[u64]),
    room: usize,
    status: Status,
    text: &str,
) -> Result<(), AllocError> {
    let ended = run(alloc, &[], input, fails, room)?;
    expect_end(rt, &ended, status, text);
    Ok(())
}

/// The same where nothing fails.
fn expect(
    rt: &impl Abort,
    alloc: Global,
    input: &str,
    status: Status,
    text: &str,
) -> Result<(), AllocError> {
    expect_run(rt, alloc, input, (&[], &[]), 4096, status, text)
}
