//! Which words are taken, and what happens where the input or the output fails.
use super::runs::FULL;
use super::sheets::{FITS, sheet_text};
use super::{expect, expect_run, run};
use hk_io::Status;
use std::alloc::{AllocError, Global};
use std::process::Abort;
use std::test::Fail;

/// Compares how wrong words end, what is written, and that nothing is read.
fn expect_unread(
    rt: &impl Abort,
    alloc: Global,
    words: &[&str],
    fails: (&[u64], &[u64]),
    status: Status,
    text: &str,
) -> Result<(), AllocError> {
    let ended = run(alloc, words, "", fails, 100)?;
    assert_eq!(rt;
        (ended.status, ended.source.calls(), ended.sink.bytes()),
        (status, 0, text.as_bytes())
    );
    Ok(())
}

/// Words of any kind.
const WRONG: &[&[&str]] = &[&[""], &["run"], &["a", "b"]];

#[test]
fn refuses_words_before_it_reads(rt: HostRuntime) -> Result<(), Fail> {
    let usage = "usage: hk_edf\n";
    for words in WRONG {
        expect_unread(&rt, rt.alloc(), *words, (&[0], &[]), Status::Usage, usage)?;
        expect_unread(&rt, rt.alloc(), *words, (&[], &[0]), Status::WriteFault, "")?;
    }
    Ok(())
}

#[test]
fn tells_a_failed_read_from_the_end(rt: HostRuntime) -> Result<(), Fail> {
    // Two calls: all bytes, and the end.
    let sheet = sheet_text(rt.alloc(), &FITS)?;
    for (call, status, text) in [
        (0, Status::ReadFault, ""),
        (1, Status::ReadFault, ""),
        (2, Status::Done, FULL),
    ] {
        expect_run(
            &rt,
            rt.alloc(),
            sheet.as_str(),
            (&[call], &[]),
            1000,
            status,
            text,
        )?;
    }
    Ok(())
}

/// Compares that a first part of the report is written where this call fails.
fn check_call(rt: &impl Abort, alloc: Global, sheet: &str, call: u64) -> Result<(), AllocError> {
    let ended = run(alloc, &[], sheet, (&[], &[call]), 1000)?;
    let part = ended.sink.bytes();
    assert_eq!(rt;
        (
            ended.status,
            part.len() < FULL.len(),
            FULL.as_bytes().starts_with(part)
        ),
        (Status::WriteFault, true, true)
    );
    Ok(())
}

/// How many calls write the whole report, for which there is just room.
fn calls_of(rt: &impl Abort, alloc: Global, sheet: &str) -> Result<u64, AllocError> {
    let whole = run(alloc, &[], sheet, (&[], &[]), FULL.len())?;
    assert_eq!(rt; whole.status, Status::Done);
    Ok(whole.sink.calls())
}

#[test]
fn leaves_a_prefix_where_a_write_fails(rt: HostRuntime) -> Result<(), Fail> {
    let sheet = sheet_text(rt.alloc(), &FITS)?;
    for call in 0..calls_of(&rt, rt.alloc(), sheet.as_str())? {
        check_call(&rt, rt.alloc(), sheet.as_str(), call)?;
    }
    Ok(())
}

/// And where there is no more room.
#[test]
fn leaves_a_prefix_where_room_ends(rt: HostRuntime) -> Result<(), Fail> {
    let lines = "heap work 4213 attempt 0 busy 14 debt 0\nhigh a deadline 5\nhi";
    let most = FULL.strip_suffix("\n").ok_or("no newline")?;
    let sheet = sheet_text(rt.alloc(), &FITS)?;
    for part in ["", "h", lines, most] {
        expect_run(
            &rt,
            rt.alloc(),
            sheet.as_str(),
            (&[], &[]),
            part.len(),
            Status::WriteFault,
            part,
        )?;
    }
    Ok(())
}

/// A text that is longer than a sheet may be.
fn long_text(alloc: Global) -> Result<String, AllocError> {
    let mut long = String::new(alloc);
    for _ in 0..1_048_577 {
        long.push('#')?;
    }
    Ok(long)
}

#[test]
fn refuses_what_is_no_sheet(rt: HostRuntime) -> Result<(), Fail> {
    let alloc = rt.alloc();
    expect(&rt, alloc, "x", Status::Sheet, "sheet text\n")?;
    expect(&rt, alloc, "", Status::Sheet, "sheet missing version\n")?;
    let long = long_text(alloc)?;
    expect(&rt, alloc, long.as_str(), Status::Sheet, "sheet long\n")?;
    Ok(())
}
