//! Logs with each kind of answer of the collector.
use super::{FIRST, expect};
use crate::replayed::Replayed;
use std::alloc::{AllocError, Global};
use std::process::Abort;
use std::test::Fail;

/// So many times the line of a useful event.
fn push_useful(log: &mut String, count: u32) -> Result<(), AllocError> {
    for _ in 0..count {
        log.push_str("gc useful\n")?;
    }
    Ok(())
}

/// Lines, then so many useful events, then lines.
fn around(alloc: Global, before: &str, count: u32, behind: &str) -> Result<String, AllocError> {
    let mut log = String::from_str(alloc, before)?;
    push_useful(&mut log, count)?;
    log.push_str(behind)?;
    Ok(log)
}

/// One log for each answer, with so many useful events in its midst, and how long it is. A frame takes one event for its
/// word, four for the register of the board, which is claimed, reserved and linked, one for each register that is null, and
/// one for the exchange.
const KINDS: &[(&str, u32, &str, &str)] = &[
    // A move is inside its frame.
    (
        "heap 8 16 0 1 0 1 0\nbegin 0 move 1 0\nstep 0\ngc flip\n",
        0,
        "gc frame 0\ngc frame 0\n",
        "ok 6\n",
    ),
    // A move enters its frame within the attempt: the word, 4 and 7 for the registers, and the exchange.
    (
        "heap 8 16 0 1 0 1 0\nbegin 0 move 1 0\ngc flip\ngc useful\nstep 0\n",
        11,
        "gc lost 13\ngc frame 0\n",
        "ok 18\n",
    ),
    // A store has entered the board: 13 for the frame, the words reserved and the link word.
    (
        "heap 8 16 0 1 0 1 0\nbegin 0 store 0 0 0\nstep 0\ngc flip\n",
        15,
        "gc object 0\ngc object 0\n",
        "ok 21\n",
    ),
    // A store has claimed the board and reserved its place, so the frame takes 2 for its register: 1, 2, 7 and 1, and then
    // the words reserved. The place is the first one of space 0.
    (
        "heap 8 16 0 1 0 1 0\ngc flip\nbegin 0 store 0 0 0\nstep 0\nstep 0\nstep 0\nstep 0\n",
        12,
        "gc unlinked 1\ngc useful\ngc unlinked 1\n",
        "ok 22\n",
    ),
    // A store has claimed the board, and nothing is reserved: the frame, the words reserved, the mark.
    (
        "heap 8 16 0 1 0 1 0\ngc flip\nbegin 0 store 0 0 0\nstep 0\nstep 0\nstep 0\n",
        13,
        "gc grey 0\n",
        "ok 20\n",
    ),
    // Two objects of two words, and room for one: the second register takes 3 events, since its place isn't linked.
    (
        "heap 2 16 0 1 0 1 0\nbegin 0 new 1 1 0\nstep 0\nstep 0\nstep 0\nstep 0\nstep 0\nstep 0\nend 0 unit\ngc flip\n",
        15,
        "gc live 4\ngc live 4\n",
        "ok 27\n",
    ),
];

#[test]
fn each_answer(rt: HostRuntime) -> Result<(), Fail> {
    for (before, count, behind, text) in KINDS {
        let log = around(rt.alloc(), before, *count, behind)?;
        expect(&rt, rt.alloc(), log.as_str(), Replayed::Done, text)?;
    }
    Ok(())
}

/// Compares what is said of the first log with so many useful events, and then lines.
fn expect_behind(
    rt: &impl Abort,
    alloc: Global,
    count: u32,
    behind: &str,
    replayed: Replayed,
    text: &str,
) -> Result<(), AllocError> {
    let Some((before, _)) = FIRST.split_once("gc useful\n") else {
        panic!(rt; "the log lacks an event");
    };
    let log = around(alloc, before, count, behind)?;
    expect(rt, alloc, log.as_str(), replayed, text)
}

#[test]
fn one_event_too_few_or_too_many(rt: HostRuntime) -> Result<(), Fail> {
    let alloc = rt.alloc();
    // The fourteenth event is followed by a useful one, the fifteenth isn't.
    for (count, text) in [
        (0, "differs 5\n"),
        (1, "differs 6\n"),
        (13, "differs 18\n"),
        (14, "differs 19\n"),
        (16, "differs 20\n"),
        (20, "differs 20\n"),
    ] {
        expect_behind(&rt, alloc, count, "gc object 0\n", Replayed::Differs, text)?;
    }
    for (line, text) in [
        ("gc object 1\n", "differs 20\n"),
        ("gc object 4294967296\n", "differs 20\n"),
        ("gc useful\n", "differs 20\n"),
        ("gc flip\n", "differs 20\n"),
        ("gc frame 0\n", "differs 20\n"),
        ("gc lost 0\n", "differs 20\n"),
        ("gc unlinked 0\n", "differs 20\n"),
        ("gc grey 0\n", "differs 20\n"),
        ("gc live 0\n", "differs 20\n"),
        ("gc worn\n", "differs 20\n"),
    ] {
        expect_behind(&rt, alloc, 15, line, Replayed::Differs, text)?;
    }
    for line in [
        "gc object\n",
        "gc object 0 \n",
        "gc object -1\n",
        "gc object 18446744073709551616\n",
        "gc frame 1\n",
        "gc frame\n",
        "gc\n",
        "gc  useful\n",
        "gc useful 0\n",
        "GC useful\n",
        "gc useful\r\n",
        "\n",
        " \n",
        "ok 20\n",
    ] {
        expect_behind(&rt, alloc, 15, line, Replayed::Log, "log 20\n")?;
    }
    Ok(())
}
