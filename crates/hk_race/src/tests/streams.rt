//! What happens where the input or the output fails.
use super::{TEXT_OF_TWO, TWO, edited, expect, expect_end, run};
use crate::Open;
use hk_io::Status;
use std::alloc::{AllocError, Global};
use std::process::Abort;
use std::sync::Wait;
use std::test::Fail;
use std::thread::Threads;

/// Compares how the program ends on the sheet of two tasks, what it writes, and whether there was a race.
fn expect_race<R: Abort + Threads + Wait + Sync>(
    rt: &R,
    alloc: Global,
    fails: (&[u64], &[u64]),
    room: usize,
    wanted: (Status, &str, bool),
) -> Result<(), AllocError> {
    let ended = run(rt, alloc, &[], TWO, fails, room, &Open)?;
    let (status, text, raced) = wanted;
    expect_end(rt, &ended, status, text);
    assert!(rt; ended.end.raced.is_some() == raced);
    Ok(())
}

/// There are two calls of the source: one for all bytes, and one that finds the end. A third one would fail.
#[test]
fn a_failed_read_is_no_end(rt: HostRuntime) -> Result<(), Fail> {
    let failed = (Status::ReadFault, "", false);
    for call in 0..2 {
        expect_race(&rt, rt.alloc(), (&[call], &[]), 65536, failed)?;
    }
    let done = (Status::Done, TEXT_OF_TWO, true);
    expect_race(&rt, rt.alloc(), (&[2], &[]), 65536, done)?;
    Ok(())
}

/// How many calls of the sink there are, where the whole text is written.
fn calls_of<R: Abort + Threads + Wait + Sync>(
    rt: &R,
    alloc: Global,
    input: &str,
    status: Status,
    text: &str,
) -> Result<u64, AllocError> {
    let whole = run(rt, alloc, &[], input, (&[], &[]), 65536, &Open)?;
    expect_end(rt, &whole, status, text);
    Ok(whole.sink.calls())
}

/// Compares that this call of the sink leaves a first part of a text where it fails.
fn expect_part<R: Abort + Threads + Wait + Sync>(
    rt: &R,
    alloc: Global,
    input: &str,
    call: u64,
    text: &str,
) -> Result<(), AllocError> {
    let ended = run(rt, alloc, &[], input, (&[], &[call]), 65536, &Open)?;
    let part = ended.sink.bytes();
    assert_eq!(rt;
        (
            ended.end.status,
            text.as_bytes().starts_with(part),
            part.len() < text.len()
        ),
        (Status::WriteFault, true, true)
    );
    Ok(())
}

/// Compares how the program ends, what it writes, and that each call of the sink that fails leaves a first part of that.
fn expect_parts<R: Abort + Threads + Wait + Sync>(
    rt: &R,
    alloc: Global,
    input: &str,
    status: Status,
    text: &str,
) -> Result<(), AllocError> {
    for call in 0..calls_of(rt, alloc, input, status, text)? {
        expect_part(rt, alloc, input, call, text)?;
    }
    Ok(())
}

/// The text of a race goes out in one piece. Also where it doesn't, the race was run to its end.
#[test]
fn a_failed_write_leaves_a_part(rt: HostRuntime) -> Result<(), Fail> {
    expect_parts(&rt, rt.alloc(), TWO, Status::Done, TEXT_OF_TWO)?;
    let short = (Status::WriteFault, "out a 0\nd", true);
    expect_race(&rt, rt.alloc(), (&[], &[]), 9, short)?;
    Ok(())
}

#[test]
fn a_failed_write_leaves_a_part_of_a_refusal(rt: HostRuntime) -> Result<(), Fail> {
    let input = edited(
        &rt,
        rt.alloc(),
        TWO,
        "out v0",
        "repeat 65535\nrepeat 65535\nend\nend",
    )?;
    let line = "sheet task a long\n";
    expect_parts(&rt, rt.alloc(), input.as_str(), Status::Sheet, line)?;
    Ok(())
}

/// The sheet of two tasks with a comment at the end that fills it up to so many bytes.
fn filled(alloc: Global, length: usize) -> Result<String, AllocError> {
    let mut input = String::from_str(alloc, TWO)?;
    input.push('#')?;
    for _ in input.len()..length {
        input.push('x')?;
    }
    Ok(input)
}

/// Compares what the race of such a sheet comes to.
fn expect_filled<R: Abort + Threads + Wait + Sync>(
    rt: &R,
    alloc: Global,
    length: usize,
    status: Status,
    text: &str,
) -> Result<(), AllocError> {
    let input = filled(alloc, length)?;
    expect(rt, alloc, input.as_str(), status, text)
}

#[test]
fn takes_inputs_up_to_their_longest(rt: HostRuntime) -> Result<(), Fail> {
    expect_filled(&rt, rt.alloc(), 1_048_576, Status::Done, TEXT_OF_TWO)?;
    expect_filled(&rt, rt.alloc(), 1_048_577, Status::Sheet, "sheet long\n")?;
    Ok(())
}
