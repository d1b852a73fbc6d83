//! A log with every call, and what is said of it where it is spoiled.
use super::expect;
use crate::replayed::Replayed;
use std::alloc::{AllocError, Global};
use std::process::Abort;
use std::test::Fail;

/// A log of 52 lines. A put and a get have 3 places, a new and a store 7, a load 10, a move 3, a clear 1. The second new
/// finds 2 words used, and wants 15 of 16.
const CALLS: &str = "heap 8 16 0 1 0 1 1
begin 0 put 0 0 7
step 0
step 0
end 0 unit
begin 0 get 0 0
step 0
step 0
end 0 num 7
fault 0 get 1 0 nil
fault 0 get 0 1 field
begin 0 new 1 1 0
step 0
step 0
step 0
step 0
step 0
step 0
end 0 unit
begin 0 store 0 0 1
step 0
step 0
step 0
step 0
step 0
step 0
end 0 unit
begin 0 load 2 0 0
step 0
step 0
step 0
step 0
step 0
step 0
step 0
step 0
step 0
end 0 unit
begin 0 move 3 2
step 0
step 0
end 0 unit
begin 0 clear 3
end 0 unit
begin 0 new 1 0 14
step 0
step 0
step 0
step 0
step 0
step 0
end 0 full 2
";

/// The first and the last line of each call.
const ROWS: &[(u64, u64)] = &[
    (2, 5),
    (6, 9),
    (12, 19),
    (20, 27),
    (28, 38),
    (39, 42),
    (43, 44),
    (45, 52),
];

/// The log with a line so many times.
fn with_line(alloc: Global, at: u64, times: u32) -> Result<String, AllocError> {
    let mut log = String::new(alloc);
    let mut number: u64 = 0;
    for line in CALLS.lines() {
        number = number.saturating_add(1);
        let count = if number == at { times } else { 1 };
        for _ in 0..count {
            log.push_str(line)?;
            log.push_str("\n")?;
        }
    }
    Ok(log)
}

/// The log with another line.
fn with_other(alloc: Global, at: u64, other: &str) -> Result<String, AllocError> {
    let mut log = String::new(alloc);
    let mut number: u64 = 0;
    for line in CALLS.lines() {
        number = number.saturating_add(1);
        log.push_str(if number == at { other } else { line })?;
        log.push_str("\n")?;
    }
    Ok(log)
}

/// The line that differs where a line of a call is dropped: without its begin the next line finds the seat idle, without a
/// step the end comes one place too early, and without its end the next line finds the seat busy.
fn without(begin: u64, end: u64, at: u64) -> u64 {
    if at == begin || at == end {
        at
    } else {
        end.saturating_sub(1)
    }
}

/// The line that differs where a line of a call is doubled: the second begin finds the seat busy, with one step more the
/// last one ends the call, and the second end finds the seat idle.
fn doubled(begin: u64, end: u64, at: u64) -> u64 {
    if at == begin || at == end {
        at.saturating_add(1)
    } else {
        end
    }
}

/// Compares what is said of the log with a line so many times.
fn expect_times(
    rt: &impl Abort,
    alloc: Global,
    at: u64,
    times: u32,
    replayed: Replayed,
    text: &str,
) -> Result<(), AllocError> {
    let log = with_line(alloc, at, times)?;
    expect(rt, alloc, log.as_str(), replayed, text)
}

/// Compares which line differs in the log with a line so many times.
fn expect_differs(
    rt: &impl Abort,
    alloc: Global,
    at: u64,
    times: u32,
    line: u64,
) -> Result<(), AllocError> {
    let text = format!(in alloc; "differs {line}\n")?;
    expect_times(rt, alloc, at, times, Replayed::Differs, text.as_str())
}

/// Compares what is said of the log with another line.
fn expect_other(
    rt: &impl Abort,
    alloc: Global,
    at: u64,
    other: &str,
    replayed: Replayed,
    text: &str,
) -> Result<(), AllocError> {
    let log = with_other(alloc, at, other)?;
    expect(rt, alloc, log.as_str(), replayed, text)
}

#[test]
fn the_log_itself(rt: HostRuntime) -> Result<(), Fail> {
    let alloc = rt.alloc();
    expect(&rt, alloc, CALLS, Replayed::Done, "ok 52\n")?;
    // A call may be left in flight.
    expect_times(&rt, alloc, 52, 0, Replayed::Done, "ok 51\n")?;
    // A call that was refused is no part of another.
    for at in [10, 11] {
        expect_times(&rt, alloc, at, 0, Replayed::Done, "ok 51\n")?;
        expect_times(&rt, alloc, at, 2, Replayed::Done, "ok 53\n")?;
    }
    Ok(())
}

#[test]
fn a_line_dropped(rt: HostRuntime) -> Result<(), Fail> {
    for (begin, end) in ROWS {
        for at in *begin..end.saturating_add(1) {
            if at != 52 {
                expect_differs(&rt, rt.alloc(), at, 0, without(*begin, *end, at))?;
            }
        }
    }
    Ok(())
}

#[test]
fn a_line_doubled(rt: HostRuntime) -> Result<(), Fail> {
    for (begin, end) in ROWS {
        for at in *begin..end.saturating_add(1) {
            expect_differs(&rt, rt.alloc(), at, 2, doubled(*begin, *end, at))?;
        }
    }
    Ok(())
}

/// A line in place of another, and the line that differs.
const OTHERS: &[(u64, &str, u64)] = &[
    // what was written is read
    (2, "begin 0 put 0 0 8", 9),
    // null, and no such field
    (2, "begin 0 put 1 0 7", 2),
    (2, "begin 0 put 0 1 7", 2),
    (2, "fault 0 put 0 0 7 nil", 2),
    (3, "end 0 unit", 3),
    (3, "gc useful", 3),
    (4, "end 0 unit", 4),
    (5, "step 0", 5),
    (5, "end 0 num 7", 5),
    (5, "end 0 full 7", 5),
    (6, "begin 0 get 0 1", 6),
    (9, "end 0 num 8", 9),
    (9, "end 0 unit", 9),
    (9, "end 0 full 7", 9),
    (10, "fault 0 get 1 0 field", 10),
    (10, "fault 0 get 0 0 nil", 10),
    (10, "begin 0 get 1 0", 10),
    // a call that goes through no register isn't refused
    (10, "fault 0 move 1 0 nil", 10),
    (10, "fault 0 clear 1 nil", 10),
    (10, "fault 0 new 1 1 1 nil", 10),
    (11, "fault 0 get 0 0 field", 11),
    (11, "fault 0 get 0 1 nil", 11),
    (11, "fault 0 load 1 0 0 field", 11),
    (11, "fault 0 store 0 0 0 field", 11),
    // a word more is used
    (12, "begin 0 new 1 1 1", 52),
    // 17 words of 16
    (12, "begin 0 new 1 0 16", 19),
    (20, "begin 0 store 0 1 1", 20),
    (20, "begin 0 store 1 1 0", 20),
    (20, "begin 0 store 7 0 1", 20),
    (28, "begin 0 load 2 0 1", 28),
    (28, "begin 0 load 2 3 0", 28),
    (39, "begin 0 clear 3", 40),
    (43, "begin 0 move 3 2", 44),
    // 2 and 14 words are all
    (45, "begin 0 new 1 0 13", 52),
    (52, "end 0 full 1", 52),
    (52, "end 0 full 3", 52),
    (52, "end 0 unit", 52),
    (52, "step 0", 52),
];

#[test]
fn another_line(rt: HostRuntime) -> Result<(), Fail> {
    let alloc = rt.alloc();
    for (at, other, line) in OTHERS {
        let text = format!(in alloc; "differs {line}\n")?;
        expect_other(&rt, alloc, *at, other, Replayed::Differs, text.as_str())?;
    }
    // another null register, a field of a null one, another reserve than is asked for
    for (at, other) in [
        (10, "fault 0 get 7 61 nil"),
        (1, "heap 8 16 2 0 1 1 1"),
        (1, "heap 65536 16 16 1 30 1 1"),
    ] {
        expect_other(&rt, alloc, at, other, Replayed::Done, "ok 52\n")?;
    }
    Ok(())
}

/// A line that isn't of its form.
const NONE: &[(u64, &str)] = &[
    (1, "heap 9 16 0 1 0 1 1"),
    (1, "heap 8 14 0 1 0 1 1"),
    (1, "heap 8 65538 0 1 0 1 1"),
    (1, "heap 8 16 17 1 0 1 1"),
    (1, "heap 8 16 0 0 0 1 1"),
    (1, "heap 8 16 0 31 1 1 1"),
    (1, "heap 64 16 0 1 0 31 32"),
    (1, "heap 8 16 0 1 0 0 0"),
    (1, "heap 4294967304 16 0 1 0 1 1"),
    (1, "heap 8 16 0 257 0 1 1"),
    (1, "heap 8 16 0 1 0 1"),
    (1, "heap 8 16 0 1 0 1 1 8"),
    (1, "gc flip"),
    (2, "heap 8 16 0 1 0 1 1"),
    (2, "begin 1 put 0 0 7"),
    (2, "begin 256 put 0 0 7"),
    (2, "begin 0 put 8 0 7"),
    (2, "begin 0 put 0 62 7"),
    (2, "begin 0 put 0 0 18446744073709551616"),
    (2, "begin 0 put 0 0 000000000000000000007"),
    (2, "begin 0 put 0 0"),
    (2, "begin 0 put 0 0 7 "),
    (2, "begin 0 put 0 0 7 nil"),
    (2, " begin 0 put 0 0 7"),
    (2, "begin 0 same 0 0"),
    (2, "begin put 0 0 7"),
    (3, "step 1"),
    (3, "step"),
    (3, "step 0 0"),
    (5, "end 0 yes"),
    (5, "end 1 unit"),
    (5, "end 0 unit 0"),
    (9, "end 0 num"),
    (9, "end 0 num x"),
    (10, "fault 0 get 1 0"),
    (10, "fault 0 get 1 0 full"),
    (10, "fault 1 get 1 0 nil"),
    (12, "begin 0 new 0 1 0"),
    (12, "begin 0 new 1 0 0"),
    (12, "begin 0 new 1 31 32"),
    (12, "begin 0 new 1 255 255"),
    (28, "begin 0 load 0 0 0"),
    (39, "begin 0 move 0 2"),
    (39, "begin 0 move 3 8"),
    (43, "begin 0 clear 0"),
    (52, "end 0 full"),
    (52, ""),
];

#[test]
fn no_line(rt: HostRuntime) -> Result<(), Fail> {
    let alloc = rt.alloc();
    for (at, other) in NONE {
        let text = format!(in alloc; "log {at}\n")?;
        expect_other(&rt, alloc, *at, other, Replayed::Log, text.as_str())?;
    }
    // It goes before a line that differs.
    let both = "begin 0 put 0 0 8\nstep 1";
    expect_other(&rt, alloc, 2, both, Replayed::Log, "log 3\n")?;
    Ok(())
}

/// Compares which line of some has no form, where they stand behind the first nine of the log.
fn expect_log_behind(rt: &impl Abort, alloc: Global, behind: &str) -> Result<(), AllocError> {
    let Some((before, _)) = CALLS.split_once("fault") else {
        panic!(rt; "the log lacks a fault");
    };
    let log = format!(in alloc; "{before}{behind}")?;
    let lines = behind.lines().count().saturating_add(9);
    let text = format!(in alloc; "log {lines}\n")?;
    expect(rt, alloc, log.as_str(), Replayed::Log, text.as_str())
}

#[test]
fn no_last_line(rt: HostRuntime) -> Result<(), Fail> {
    for behind in [
        "end 0 num 7\nstep 1\n",
        "step 0\nstep 0\nstep 0\nend 0 unit\n\n",
    ] {
        expect_log_behind(&rt, rt.alloc(), behind)?;
    }
    Ok(())
}
