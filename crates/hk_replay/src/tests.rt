//! Logs worked out by hand.
mod kinds;
mod spoiled;

use crate::replayed::Replayed;
use crate::tool::run_replay;
use hk_io::{MemSink, MemSource, Trial};
use std::alloc::{AllocError, Global};
use std::process::Abort;
use std::test::Fail;

/// A log, of which the store has entered the board where the collector comes to it.
const FIRST: &str = "heap 8 16 0 1 0 1 0
begin 0 store 0 0 0
step 0
gc flip
gc useful
gc useful
gc useful
gc useful
gc useful
gc useful
gc useful
gc useful
gc useful
gc useful
gc useful
gc useful
gc useful
gc useful
gc useful
gc object 0
";

/// How a run ended, and its source and sink.
#[derive(Drop)]
struct Ended {
    replayed: Replayed,
    source: MemSource,
    sink: MemSink,
}

/// Runs some words on an input, where the calls with these numbers fail, and the sink has so much room.
fn run(
    alloc: Global,
    words: &[&str],
    input: &[u8],
    fails: (&[u64], &[u64]),
    room: usize,
) -> Result<Ended, AllocError> {
    let Trial {
        words,
        mut source,
        mut sink,
    } = Trial::new(alloc, words, input, fails, room)?;
    let replayed = run_replay(alloc, words.as_slice(), &mut source, &mut sink);
    Ok(Ended {
        replayed,
        source,
        sink,
    })
}

/// Compares what `check` says of a log, and how it ends.
fn expect(
    rt: &impl Abort,
    alloc: Global,
    log: &str,
    replayed: Replayed,
    text: &str,
) -> Result<(), AllocError> {
    let ended = run(alloc, &["check"], log.as_bytes(), (&[], &[]), 100)?;
    assert_eq!(rt;
        (ended.replayed, ended.sink.bytes()),
        (replayed, text.as_bytes()),
        "{log}"
    );
    Ok(())
}

/// Compares how `check` ends on an input, where the calls with these numbers fail and the sink has so much room, and what it
/// says.
fn expect_check(
    rt: &impl Abort,
    alloc: Global,
    input: &[u8],
    fails: (&[u64], &[u64]),
    room: usize,
    replayed: Replayed,
    text: &str,
) -> Result<(), AllocError> {
    let ended = run(alloc, &["check"], input, fails, room)?;
    assert_eq!(rt;
        (ended.replayed, ended.sink.bytes()),
        (replayed, text.as_bytes())
    );
    Ok(())
}

#[test]
fn a_whole_log(rt: HostRuntime) -> Result<(), Fail> {
    let alloc = rt.alloc();
    expect(&rt, alloc, FIRST, Replayed::Done, "ok 20\n")?;
    // the last newline may be missing
    let trimmed = FIRST.strip_suffix("\n").ok_or("a newline")?;
    expect(&rt, alloc, trimmed, Replayed::Done, "ok 20\n")?;
    expect(
        &rt,
        alloc,
        "heap 8 16 0 1 0 1 0\n",
        Replayed::Done,
        "ok 1\n",
    )?;
    expect(&rt, alloc, "heap 8 16 0 1 0 1 0", Replayed::Done, "ok 1\n")?;
    // leading zeros are allowed
    expect(
        &rt,
        alloc,
        "heap 08 00000000000000000016 0 1 0 1 0\ngc flip",
        Replayed::Done,
        "ok 2\n",
    )?;
    Ok(())
}

#[test]
fn one_useful_event_too_few(rt: HostRuntime) -> Result<(), Fail> {
    let (before, behind) = FIRST.split_once("gc useful\n").ok_or("an event")?;
    let mut log = String::from_str(rt.alloc(), before)?;
    log.push_str(behind)?;
    expect(
        &rt,
        rt.alloc(),
        log.as_str(),
        Replayed::Differs,
        "differs 19\n",
    )?;
    Ok(())
}

#[test]
fn what_was_made_is_a_log(rt: HostRuntime) -> Result<(), Fail> {
    let alloc = rt.alloc();
    let made = run(alloc, &["make", "5"], b"", (&[0], &[]), 1_000_000)?;
    assert_eq!(rt; (made.replayed, made.source.calls()), (Replayed::Done, 0));
    expect_check(
        &rt,
        alloc,
        made.sink.bytes(),
        (&[], &[]),
        100,
        Replayed::Done,
        "ok 20001\n",
    )?;
    Ok(())
}

#[test]
fn faults_of_the_streams(rt: HostRuntime) -> Result<(), Fail> {
    let alloc = rt.alloc();
    let input = FIRST.as_bytes();
    for call in [0, 1] {
        expect_check(
            &rt,
            alloc,
            input,
            (&[call], &[]),
            100,
            Replayed::ReadFault,
            "",
        )?;
    }
    expect_check(
        &rt,
        alloc,
        input,
        (&[], &[0]),
        100,
        Replayed::WriteFault,
        "",
    )?;
    // A sink that has room for a first part.
    for part in ["", "o", "ok", "ok ", "ok 2", "ok 20"] {
        expect_check(
            &rt,
            alloc,
            input,
            (&[], &[]),
            part.len(),
            Replayed::WriteFault,
            part,
        )?;
    }
    let ended = run(alloc, &["make", "0"], b"", (&[], &[]), 1000)?;
    assert_eq!(rt;
        (ended.replayed, ended.sink.bytes().len()),
        (Replayed::WriteFault, 1000)
    );
    assert!(rt; ended.sink.bytes().starts_with(b"heap 64 64 16 2 1 2 1\n"));
    Ok(())
}

/// Words that have neither form.
const WRONG: &[&[&str]] = &[
    &[],
    &["chec"],
    &["CHECK"],
    &["check "],
    &["check", "1"],
    &["make"],
    &["make", ""],
    &["make", "-1"],
    &["make", "1x"],
    &["make", "18446744073709551616"],
    &["make", "000000000000000000001"],
    &["make", "1", "2"],
    &["5", "make"],
];

#[test]
fn other_words(rt: HostRuntime) -> Result<(), Fail> {
    for words in WRONG {
        let ended = run(rt.alloc(), words, FIRST.as_bytes(), (&[0], &[]), 100)?;
        assert_eq!(rt;
            (ended.replayed, ended.source.calls(), ended.sink.bytes()),
            (
                Replayed::Usage,
                0,
                "usage: hk_replay check, make N\n".as_bytes()
            )
        );
    }
    Ok(())
}

#[test]
fn lengths(rt: HostRuntime) -> Result<(), Fail> {
    let alloc = rt.alloc();
    expect(&rt, alloc, "", Replayed::Log, "log 1\n")?;
    expect(&rt, alloc, "\n", Replayed::Log, "log 1\n")?;
    for (length, text) in [(1_048_577, "log long\n"), (1_048_576, "log 1\n")] {
        let bytes = vec![in alloc; b'a'; length]?;
        expect_check(&rt, alloc, &bytes, (&[], &[]), 100, Replayed::Log, text)?;
    }
    Ok(())
}
