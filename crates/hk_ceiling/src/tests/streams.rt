//! Which words are taken, and what happens where the input or the output fails.
use super::runs::{REPORT, SHARED, THREE, expect_refused, expect_run, run};
use hk_io::Status;
use std::alloc::{AllocError, Global};
use std::process::Abort;
use std::test::Fail;

const USAGE: &str = "usage: hk_ceiling [NAME:RES:START:LEN]...\n";

/// Compares how wrong words end, what is written, and that nothing is read.
fn expect_unread(
    rt: &impl Abort,
    alloc: Global,
    words: &[&str],
    fails: (&[u64], &[u64]),
    status: Status,
    text: &str,
) -> Result<(), AllocError> {
    let ended = run(alloc, words, THREE, fails, 100)?;
    assert_eq!(rt;
        (ended.status, ended.source.calls(), ended.sink.bytes()),
        (status, 0, text.as_bytes())
    );
    Ok(())
}

/// Wrong words are refused before anything is read, whatever the input is.
fn check_usage(rt: &impl Abort, alloc: Global, words: &[&str]) -> Result<(), AllocError> {
    expect_unread(rt, alloc, words, (&[0], &[]), Status::Usage, USAGE)?;
    expect_unread(rt, alloc, words, (&[], &[0]), Status::WriteFault, "")
}

/// Words that tell no section, one of them behind a right one and one before.
const WRONG: &[&[&str]] = &[
    &["a:0:0"],
    &[""],
    &["run"],
    &["a:0:0:2", "c:0:1:4:0"],
    &["c:0:123456789:4", "a:0:0:2"],
];

#[test]
fn refuses_other_words_before_it_reads(rt: HostRuntime) -> Result<(), Fail> {
    for words in WRONG {
        check_usage(&rt, rt.alloc(), words)?;
    }
    Ok(())
}

/// 64 words are taken, the second of which is a section that is wrong, and 65 aren't.
#[test]
fn takes_64_words(rt: HostRuntime) -> Result<(), Fail> {
    let line = "refused section 1\n";
    expect_refused(&rt, rt.alloc(), &["a:0:0:1"; 64], THREE, line)?;
    check_usage(&rt, rt.alloc(), &["a:0:0:1"; 65])?;
    Ok(())
}

/// Two calls read the input: all bytes, and the end.
#[test]
fn tells_a_failed_read_from_the_end(rt: HostRuntime) -> Result<(), Fail> {
    for (call, status, text) in [
        (0, Status::ReadFault, ""),
        (1, Status::ReadFault, ""),
        (2, Status::Done, REPORT),
    ] {
        expect_run(
            &rt,
            rt.alloc(),
            SHARED,
            THREE,
            (&[call], &[]),
            4096,
            (status, text),
        )?;
    }
    Ok(())
}

/// A first part of a text was written, where a call fails.
fn check_prefix(
    rt: &impl Abort,
    alloc: Global,
    words: &[&str],
    text: &str,
    call: u64,
) -> Result<(), AllocError> {
    let ended = run(alloc, words, THREE, (&[], &[call]), 4096)?;
    let part = ended.sink.bytes();
    assert_eq!(rt;
        (
            ended.status,
            part.len() < text.len(),
            text.as_bytes().starts_with(part)
        ),
        (Status::WriteFault, true, true)
    );
    Ok(())
}

/// How many calls write a text, each of which is whole.
fn calls_of(rt: &impl Abort, alloc: Global, words: &[&str], text: &str) -> Result<u64, AllocError> {
    let whole = run(alloc, words, THREE, (&[], &[]), 4096)?;
    assert_eq!(rt; whole.sink.bytes(), text.as_bytes());
    Ok(whole.sink.calls())
}

/// So it is at each call that writes it.
fn check_prefixes(
    rt: &impl Abort,
    alloc: Global,
    words: &[&str],
    text: &str,
) -> Result<(), AllocError> {
    let calls = calls_of(rt, alloc, words, text)?;
    assert!(rt; calls > 1);
    for call in 0..calls {
        check_prefix(rt, alloc, words, text, call)?;
    }
    Ok(())
}

#[test]
fn leaves_a_prefix_where_a_write_fails(rt: HostRuntime) -> Result<(), Fail> {
    check_prefixes(&rt, rt.alloc(), SHARED, REPORT)?;
    check_prefixes(&rt, rt.alloc(), &["d:0:0:1"], "refused section 0\n")?;
    Ok(())
}

/// And where there is no more room.
#[test]
fn leaves_a_prefix_where_room_ends(rt: HostRuntime) -> Result<(), Fail> {
    let line = "heap work 4247 attempt 0 busy 10 debt 0\n";
    let most = REPORT.strip_suffix("\n").ok_or("no newline")?;
    for wanted in [
        (Status::WriteFault, ""),
        (Status::WriteFault, "h"),
        (Status::WriteFault, line),
        (Status::WriteFault, most),
        (Status::Done, REPORT),
    ] {
        let room = wanted.1.len();
        expect_run(&rt, rt.alloc(), SHARED, THREE, (&[], &[]), room, wanted)?;
    }
    Ok(())
}
