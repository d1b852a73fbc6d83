//! Runs worked out by hand.
mod controller;
mod disturbed;
mod edits;
mod forms;
mod made;
mod orders;
mod rows;
mod runs;
mod streams;
mod versions;

use crate::run_tool;
use hk_io::{MemSink, MemSource, Status, Trial};
use std::alloc::Global;
use std::process::Abort;

/// The smallest sheet.
const SMALLEST: &str = r#"version = 1
ticks = 10

[heap]
live = 62
alloc = 512
reserve = 129
rate = 11
board = [2, 2]

[[high]]
name = "a"
period = 10
deadline = 10
cost = 2
words = 0
first = 0
every = 10
script = """
work 1
out v0
"""
"#;

/// Its analysis.
const ANALYSIS: &str = "heap work 4179 attempt 0 busy 2 debt 0
high a response 2 deadline 10
";

/// Its report.
const REPORT: &str = "heap work 4179 attempt 0 busy 2 debt 0
high a response 2 deadline 10
out 1 a 0
done a jobs 1 latest 2
cycles 0 collector 0 idle 8
end 10
";

/// Three tasks, each of which goes before those behind it.
const THREE: &str = r#"version = 1
ticks = 12
heap = { live = 62, alloc = 512, reserve = 129, rate = 12, board = [2, 2] }

[[high]]
name = "a"
period = 4
deadline = 4
cost = 1
words = 0
first = 0
every = 4
script = "work 1"

[[high]]
name = "b"
period = 6
deadline = 6
cost = 2
words = 0
first = 0
every = 6
script = "work 2"

[[high]]
name = "c"
period = 12
deadline = 12
cost = 3
words = 0
first = 0
every = 12
script = "work 3"
"#;

/// Its report.
const REPORT_OF_THREE: &str = "heap work 4247 attempt 0 busy 10 debt 0
high a response 1 deadline 4
high b response 3 deadline 6
high c response 10 deadline 12
done a jobs 3 latest 1
done b jobs 2 latest 3
done c jobs 1 latest 10
cycles 0 collector 0 idle 2
end 12
";

/// The words of the forms that read a sheet.
const CHECK: &[&str] = &["check"];

const RUN: &[&str] = &["run"];

const TRACE: &[&str] = &["run", "--trace"];

/// Words of the program, a sheet with parts of its text changed one after another, how the program ends, and what it writes.
#[derive(Clone, Copy)]
struct Case {
    words: &'static [&'static str],
    sheet: &'static str,
    changes: &'static [(&'static str, &'static str)],
    status: Status,
    text: &'static str,
}

/// How a run ended, and its source and sink.
#[derive(Drop)]
struct Ended {
    status: Status,
    source: MemSource,
    sink: MemSink,
}

/// Words, an input and a sink of so much room, where the calls with these numbers fail.
fn trial(
    rt: &impl Abort,
    alloc: Global,
    words: &[&str],
    input: &str,
    fails: (&[u64], &[u64]),
    room: usize,
) -> Trial {
    Trial::new(alloc, words, input.as_bytes(), fails, room).expect(rt, "no memory")
}

/// Runs some words on an input, where the calls with these numbers fail, and the sink has so much room.
fn run(
    rt: &impl Abort,
    alloc: Global,
    words: &[&str],
    input: &str,
    fails: (&[u64], &[u64]),
    room: usize,
) -> Ended {
    let Trial {
        words,
        mut source,
        mut sink,
    } = trial(rt, alloc, words, input, fails, room);
    let status = run_tool(alloc, words.as_slice(), &mut source, &mut sink);
    Ended {
        status,
        source,
        sink,
    }
}

/// Compares how a run ended.
fn expect_status(rt: &impl Abort, ended: &Ended, status: Status) {
    assert_eq!(rt; ended.status, status);
}

/// Compares how a run ended, and what it wrote.
fn expect_end(rt: &impl Abort, ended: &Ended, status: Status, text: &str) {
    expect_status(rt, ended, status);
    assert_eq!(rt; ended.sink.bytes(), text.as_bytes());
}

/// Compares that a write failed, and that a first part of a text was written, and not all of it.
fn expect_part(rt: &impl Abort, ended: &Ended, text: &str) {
    let part = ended.sink.bytes();
    expect_status(rt, ended, Status::WriteFault);
    assert!(rt; text.as_bytes().starts_with(part) && part.len() < text.len());
}

/// Compares what some words write for an input, and how the program ends.
fn expect(rt: &impl Abort, alloc: Global, words: &[&str], input: &str, status: Status, text: &str) {
    let ended = run(rt, alloc, words, input, (&[], &[]), 65536);
    expect_end(rt, &ended, status, text);
}

/// Compares what the word `run` writes for an input, and how it ends.
fn expect_run(rt: &impl Abort, alloc: Global, input: &str, status: Status, text: &str) {
    expect(rt, alloc, RUN, input, status, text);
}

/// Adds a text to another.
fn add(rt: &impl Abort, text: &mut String, more: &str) {
    text.push_str(more).expect(rt, "no memory");
}

/// A sheet with a part of its text changed.
fn edited(rt: &impl Abort, alloc: Global, sheet: &str, old: &str, new: &str) -> String {
    let (before, after) = sheet.split_once(old).expect(rt, old);
    let mut text = String::from_str(alloc, before).expect(rt, "no memory");
    add(rt, &mut text, new);
    add(rt, &mut text, after);
    text
}

/// A sheet with parts of its text changed, one after another.
fn changed(rt: &impl Abort, alloc: Global, sheet: &str, changes: &[(&str, &str)]) -> String {
    let mut text = String::from_str(alloc, sheet).expect(rt, "no memory");
    for (old, new) in changes {
        text = edited(rt, alloc, text.as_str(), old, new);
    }
    text
}

/// Runs a case, and compares how it ends and what it writes.
fn expect_case(rt: &impl Abort, alloc: Global, case: &Case) {
    let input = changed(rt, alloc, case.sheet, case.changes);
    expect(
        rt,
        alloc,
        case.words,
        input.as_str(),
        case.status,
        case.text,
    );
}

/// Runs cases, and compares how each ends and what it writes.
fn expect_cases(rt: &impl Abort, alloc: Global, cases: &[Case]) {
    for case in cases {
        expect_case(rt, alloc, case);
    }
}
