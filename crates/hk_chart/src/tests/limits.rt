//! What is taken up to its limit, and refused behind it.
use super::{SMALLEST, expect, expect_lines, run};
use crate::charted::Charted;
use std::alloc::{AllocError, Global};
use std::test::Fail;

/// The first and the last tick, and what the name of the picture of a run of ten ticks says then.
const WORDS: &[(&str, &str, &str)] = &[
    ("0", "0", "1 ticks from 0 on"),
    ("0", "9", "10 ticks from 0 on"),
    ("0", "16777215", "10 ticks from 0 on"),
    ("9", "9", "1 ticks from 9 on"),
    ("9", "16777215", "1 ticks from 9 on"),
    ("10", "16777215", "1 ticks from 10 on"),
    ("16777215", "16777215", "1 ticks from 16777215 on"),
];

#[test]
fn takes_words_at_their_limits(rt: HostRuntime) -> Result<(), Fail> {
    let alloc = rt.alloc();
    for (first, last, said) in WORDS {
        let name = format!(in alloc;
            "<title id=\"title\">Who got each tick: {said}, of a run of 10 </title>"
        )?;
        expect_lines(
            &rt,
            alloc,
            &[*first, *last],
            SMALLEST,
            &["<title id"],
            &[name.as_str()],
        )?;
    }
    Ok(())
}

/// A trace of so many ticks, without its last lines, in which the collector and nobody have the ticks in turn.
fn turns(alloc: Global, ticks: u32) -> Result<String, AllocError> {
    let mut text = String::from_str(alloc, "heap work 9 attempt 3 busy 5 debt 4\n")?;
    for tick in 0..ticks {
        let line = if tick % 2 == 0 {
            format!(in alloc; "t {tick} gc step\n")?
        } else {
            format!(in alloc; "t {tick} idle\n")?
        };
        text.push_str(line.as_str())?;
    }
    Ok(text)
}

#[test]
fn takes_shapes_up_to_their_limit(rt: HostRuntime) -> Result<(), Fail> {
    // Each tick but the last one is a rectangle that is done. With 1,048,576 of them the line behind the ticks is the one that
    // lacks: the analysis has one line, and the ticks 1,048,577. With one tick more there are too many.
    let alloc = rt.alloc();
    let mut input = turns(alloc, 1_048_577)?;
    expect(
        &rt,
        alloc,
        &[],
        input.as_str(),
        Charted::Trace,
        "line 1048579\n",
    )?;
    input.push_str("t 1048577 idle\n")?;
    expect(
        &rt,
        alloc,
        &[],
        input.as_str(),
        Charted::Trace,
        "trace long\n",
    )?;
    Ok(())
}

/// A line that goes on for a million digits.
fn endless_line(alloc: Global) -> Result<String, AllocError> {
    let mut endless = String::from_str(alloc, "heap work ")?;
    for _ in 0..1_000_000 {
        endless.push('1')?;
    }
    Ok(endless)
}

#[test]
fn stops_in_an_endless_line(rt: HostRuntime) -> Result<(), Fail> {
    // A line has 159 bytes before its newline at most. Reading stops in the first piece of a line that goes on.
    let endless = endless_line(rt.alloc())?;
    let ended = run(rt.alloc(), &[], endless.as_str(), (&[], &[]), 100)?;
    assert_eq!(rt;
        (ended.charted, ended.sink.bytes(), ended.source.calls()),
        (Charted::Trace, "line 1\n".as_bytes(), 1)
    );
    Ok(())
}

#[test]
fn stops_in_a_later_endless_line(rt: HostRuntime) -> Result<(), Fail> {
    // The smallest trace has 17 lines.
    let alloc = rt.alloc();
    let endless = endless_line(alloc)?;
    let later = format!(in alloc; "{SMALLEST}{endless}")?;
    expect(&rt, alloc, &[], later.as_str(), Charted::Trace, "line 18\n")?;
    Ok(())
}
