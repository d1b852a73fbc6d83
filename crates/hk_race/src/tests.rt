//! Races of small sheets that were worked out by hand.
mod gates;
mod refusals;
mod rooms;
mod streams;

use crate::{Gate, Open, RaceEnd, race};
use hk_io::{MemSink, MemSource, Status, Trial};
use std::alloc::{AllocError, Global};
use std::process::Abort;
use std::sync::Wait;
use std::thread::Threads;

/// A high task reads a number of the board, and a low one writes another and reads it back.
const TWO: &str = r#"version = 1
ticks = 1

[heap]
live = 62
alloc = 512
reserve = 129
rate = 11
board = [2, 2]

[[high]]
name = "a"
period = 10
deadline = 10
cost = 4
words = 0
first = 0
every = 10
script = """
get v0 r0 0
out v0
"""

[[low]]
name = "b"
first = 0
every = 10
script = """
set v0 5
put r0 1 v0
get v1 r0 1
out v1
"""
"#;

/// What that comes to.
const TEXT_OF_TWO: &str = "out a 0\ndone a jobs 1\nout b 5\ndone b jobs 1\nend\n";

/// How the program ended, and its source and sink.
#[derive(Drop)]
struct Ended {
    end: RaceEnd,
    source: MemSource,
    sink: MemSink,
}

/// Runs the program for some words and an input, where the calls of the source and of the sink with these numbers fail, and the
/// sink has so much room.
fn run<R: Threads + Wait + Sync, G: Gate>(
    rt: &R,
    alloc: Global,
    words: &[&str],
    input: &str,
    fails: (&[u64], &[u64]),
    room: usize,
    gate: &G,
) -> Result<Ended, AllocError> {
    let Trial {
        words,
        mut source,
        mut sink,
    } = Trial::new(alloc, words, input.as_bytes(), fails, room)?;
    let end = race(rt, alloc, words.as_slice(), &mut source, &mut sink, gate);
    Ok(Ended { end, source, sink })
}

/// Compares how the program ended, and what it wrote.
fn expect_end(rt: &impl Abort, ended: &Ended, status: Status, text: &str) {
    assert_eq!(rt;
        (ended.end.status, ended.sink.bytes()),
        (status, text.as_bytes())
    );
}

/// Compares what the race of an input comes to beside a gate.
fn expect_at<R: Abort + Threads + Wait + Sync, G: Gate>(
    rt: &R,
    alloc: Global,
    input: &str,
    gate: &G,
    status: Status,
    text: &str,
) -> Result<(), AllocError> {
    let ended = run(rt, alloc, &[], input, (&[], &[]), 65536, gate)?;
    expect_end(rt, &ended, status, text);
    Ok(())
}

/// Compares what the race of an input comes to.
fn expect<R: Abort + Threads + Wait + Sync>(
    rt: &R,
    alloc: Global,
    input: &str,
    status: Status,
    text: &str,
) -> Result<(), AllocError> {
    expect_at(rt, alloc, input, &Open, status, text)
}

/// A sheet with a part of its text changed.
fn edited(
    rt: &impl Abort,
    alloc: Global,
    sheet: &str,
    old: &str,
    new: &str,
) -> Result<String, AllocError> {
    let Some((before, after)) = sheet.split_once(old) else {
        panic!(rt; "the sheet lacks {old:?}");
    };
    format!(in alloc; "{before}{new}{after}")
}

/// Compares what the race of a sheet comes to of which a part is changed.
fn expect_edited<R: Abort + Threads + Wait + Sync>(
    rt: &R,
    alloc: Global,
    sheet: &str,
    change: (&str, &str),
    status: Status,
    text: &str,
) -> Result<(), AllocError> {
    let input = edited(rt, alloc, sheet, change.0, change.1)?;
    expect(rt, alloc, input.as_str(), status, text)
}
