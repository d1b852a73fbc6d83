//! Orders that are worked out by hand, all orders of a few tasks tried one after the other, and the program.
mod few;
mod rows;
mod streams;
mod worked;

ghost use Rattle.std.specs.Prelude.{IsTrue, ◌↔◌};
ghost use Rattle.hk_rta.specs.Demand.{IsTimed};

use crate::assignment::assign;
use crate::order::{Order, Stuck};
use crate::tool::run_assign;
use hk_io::{MemSink, MemSource, Status, Trial};
use hk_rta::{MAX_TASKS, MAX_TICKS, Timing};
use hk_sheet::{High, Low, Name, Sheet, read};
use std::alloc::Global;
use std::process::Abort;

/// Three tasks, of which only the first can be the last.
const THREE: &str = r#"version = 1
ticks = 12
heap = { live = 62, alloc = 512, reserve = 129, rate = 12, board = [2, 2] }

[[high]]
name = "c"
period = 12
deadline = 12
cost = 3
words = 0
first = 0
every = 12
script = "work 3"

[[high]]
name = "b"
period = 6
deadline = 6
cost = 2
words = 0
first = 0
every = 6
script = "work 2"

[[high]]
name = "a"
period = 4
deadline = 4
cost = 1
words = 0
first = 0
every = 4
script = "work 1"
"#;

/// Whether a task's times are in their ranges.
fn is_timed(task: &Timing) -> bool
    ensures { IsTrue result ↔ IsTimed task.now }
{
    let time = 1..=MAX_TICKS;
    time.contains(&task.cost)
        && time.contains(&task.period)
        && time.contains(&task.deadline)
        && task.jitter <= MAX_TICKS
}

/// What is answered for tasks.
fn answer(rt: &impl Abort, tasks: &[Timing]) -> Result<Order, Stuck> {
    assert!(rt; tasks.len() <= MAX_TASKS);
    assert!(rt; tasks.iter().all(is_timed));
    assign(tasks)
}

/// Adds a text to another.
fn add(rt: &impl Abort, text: &mut String, more: &str) {
    text.push_str(more).expect(rt, "no memory");
}

/// Adds an index to a line.
fn add_index(rt: &impl Abort, alloc: Global, line: &mut String, index: usize) {
    let word = format!(in alloc; " {index}").expect(rt, "no memory");
    add(rt, line, word.as_str());
}

/// The task at a place of an order, or the one with this index where it's one of those that are stuck.
fn task_at(answer: &Result<Order, Stuck>, index: u8) -> Option<usize> {
    match answer {
        Ok(order) if usize::from(index) < order.len() => Some(usize::from(order.at(index))),
        Err(stuck) if stuck.has(index) => Some(usize::from(index)),
        _ => None,
    }
}

/// An answer as a line.
fn line(rt: &impl Abort, alloc: Global, answer: &Result<Order, Stuck>) -> String {
    let word = if answer.is_ok() { "order" } else { "stuck" };
    let mut line = String::from_str(alloc, word).expect(rt, "no memory");
    for index in 0..=255_u8 {
        if let Some(task) = task_at(answer, index) {
            add_index(rt, alloc, &mut line, task);
        }
    }
    line
}

/// Compares the answer for some tasks as a line.
fn expect_answer(rt: &impl Abort, alloc: Global, tasks: &[Timing], wanted: &str) {
    let found = line(rt, alloc, &answer(rt, tasks));
    assert_eq!(rt; found.as_str(), wanted, "{tasks:?}");
}

/// How a run ended, and its source and sink.
#[derive(Drop)]
struct Ended {
    status: Status,
    source: MemSource,
    sink: MemSink,
}

/// Words, an input and a sink of so much room, where the calls with these numbers fail.
fn trial(
    rt: &impl Abort,
    alloc: Global,
    words: &[&str],
    input: &str,
    fails: (&[u64], &[u64]),
    room: usize,
) -> Trial {
    Trial::new(alloc, words, input.as_bytes(), fails, room).expect(rt, "no memory")
}

/// Runs some words on an input, where the calls with these numbers fail, and the sink has so much room.
fn run(
    rt: &impl Abort,
    alloc: Global,
    words: &[&str],
    input: &str,
    fails: (&[u64], &[u64]),
    room: usize,
) -> Ended {
    let Trial {
        words,
        mut source,
        mut sink,
    } = trial(rt, alloc, words, input, fails, room);
    let status = run_assign(alloc, words.as_slice(), &mut source, &mut sink);
    Ended {
        status,
        source,
        sink,
    }
}

/// Compares how a run ended.
fn expect_status(rt: &impl Abort, ended: &Ended, status: Status) {
    assert_eq!(rt; ended.status, status);
}

/// Compares how a run ended, and what it wrote.
fn expect_end(rt: &impl Abort, ended: &Ended, status: Status, text: &str) {
    expect_status(rt, ended, status);
    assert_eq!(rt; ended.sink.bytes(), text.as_bytes());
}

/// Compares that a write failed, and that a first part of a text was written, and not all of it.
fn expect_part(rt: &impl Abort, ended: &Ended, text: &[u8]) {
    let part = ended.sink.bytes();
    expect_status(rt, ended, Status::WriteFault);
    assert!(rt; text.starts_with(part) && part.len() < text.len());
}

/// Compares what is written for an input, and how the program ends.
fn expect(rt: &impl Abort, alloc: Global, input: &str, status: Status, text: &str) {
    let ended = run(rt, alloc, &[], input, (&[], &[]), 4096);
    expect_end(rt, &ended, status, text);
}

/// Compares that an input is done, where the sink has so much room.
fn expect_done(rt: &impl Abort, alloc: Global, input: &str, room: usize) {
    let ended = run(rt, alloc, &[], input, (&[], &[]), room);
    expect_status(rt, &ended, Status::Done);
}

/// Adds a name to a line.
fn add_name(rt: &impl Abort, line: &mut String, name: &Name) {
    let name = str::from_utf8(&name.items).expect(rt, "the name is no text");
    add(rt, line, " ");
    add(rt, line, name);
}

/// Adds the names of high tasks to a line.
fn add_high(rt: &impl Abort, line: &mut String, tasks: &[High]) {
    for task in tasks {
        add_name(rt, line, &task.name);
    }
}

/// Adds the names of low tasks to a line.
fn add_low(rt: &impl Abort, line: &mut String, tasks: &[Low]) {
    for task in tasks {
        add_name(rt, line, &task.name);
    }
}

/// The length of the run, the rate and the names of a sheet.
fn names_of(rt: &impl Abort, alloc: Global, sheet: &Sheet) -> String {
    let (ticks, rate) = (sheet.ticks, sheet.heap.rate);
    let mut line = format!(in alloc; "ticks {ticks} rate {rate} high").expect(rt, "no memory");
    add_high(rt, &mut line, &sheet.high.items);
    add(rt, &mut line, " low");
    add_low(rt, &mut line, &sheet.low.items);
    line
}

/// Compares the length of the run, the rate and the names of the sheet that is written for an input.
fn expect_names(rt: &impl Abort, alloc: Global, input: &str, names: &str) {
    let ended = run(rt, alloc, &[], input, (&[], &[]), 4096);
    expect_status(rt, &ended, Status::Done);
    let sheet = read(alloc, ended.sink.bytes()).expect(rt, "the text is no sheet");
    assert_eq!(rt; names_of(rt, alloc, &sheet).as_str(), names);
}

/// A sheet with a part of its text changed.
fn edited(rt: &impl Abort, alloc: Global, sheet: &str, old: &str, new: &str) -> String {
    let (before, after) = sheet.split_once(old).expect(rt, old);
    format!(in alloc; "{before}{new}{after}").expect(rt, "no memory")
}
