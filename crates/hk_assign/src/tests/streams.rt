//! Which words are taken, and what happens where the input or the output fails.
use super::{
    THREE, add, edited, expect, expect_done, expect_end, expect_part, expect_status, run, trial,
};
use crate::tool::run_assign;
use hk_io::{Status, StdSource, Trial};
use std::alloc::Global;
use std::io;
use std::io::{ErrorKind, Read};
use std::process::Abort;

/// Words that aren't taken.
const WRONG: &[&[&str]] = &[&[""], &["check"], &["run"], &["a", "b"]];

/// Compares how words end that read nothing, where the calls with these numbers fail.
fn expect_unread(
    rt: &impl Abort,
    alloc: Global,
    words: &[&str],
    fails: (&[u64], &[u64]),
    status: Status,
    text: &str,
) {
    let ended = run(rt, alloc, words, THREE, fails, 100);
    assert!(rt; ended.source.calls() == 0);
    expect_end(rt, &ended, status, text);
}

#[test]
fn refuses_words_before_it_reads(rt: HostRuntime) {
    let alloc = rt.alloc();
    let usage = "usage: hk_assign\n";
    for words in WRONG {
        expect_unread(&rt, alloc, words, (&[0], &[]), Status::Usage, usage);
        expect_unread(&rt, alloc, words, (&[], &[0]), Status::WriteFault, "");
    }
}

/// Compares how a run ends where this call of the source fails, and whether nothing is written.
fn expect_read(rt: &impl Abort, alloc: Global, call: u64, status: Status, is_empty: bool) {
    let ended = run(rt, alloc, &[], THREE, (&[call], &[]), 4096);
    expect_status(rt, &ended, status);
    assert!(rt; ended.sink.bytes().is_empty() == is_empty);
}

#[test]
fn tells_a_failed_read_from_the_end(rt: HostRuntime) {
    // Two calls: all bytes, and the end.
    expect_read(&rt, rt.alloc(), 0, Status::ReadFault, true);
    expect_read(&rt, rt.alloc(), 1, Status::ReadFault, true);
    expect_read(&rt, rt.alloc(), 2, Status::Done, false);
}

/// Compares that a first part of a text is written into a sink of this room.
fn expect_room(rt: &impl Abort, alloc: Global, room: usize, text: &[u8]) {
    let ended = run(rt, alloc, &[], THREE, (&[], &[]), room);
    expect_part(rt, &ended, text);
    assert!(rt; ended.sink.bytes().len() == room);
}

#[test]
fn leaves_a_prefix_where_a_write_fails(rt: HostRuntime) {
    let alloc = rt.alloc();
    let whole = run(&rt, alloc, &[], THREE, (&[], &[]), 4096);
    let text = whole.sink.bytes();
    for room in [0, 1, 40] {
        expect_room(&rt, alloc, room, text);
    }
    expect_done(&rt, alloc, THREE, text.len());
}

#[test]
fn tells_a_failed_write(rt: HostRuntime) {
    let failed = run(&rt, rt.alloc(), &[], THREE, (&[], &[0]), 4096);
    expect_end(&rt, &failed, Status::WriteFault, "");
}

#[test]
fn refuses_what_is_no_sheet(rt: HostRuntime) {
    let alloc = rt.alloc();
    expect(&rt, alloc, "x", Status::Sheet, "sheet text\n");
    expect(&rt, alloc, "", Status::Sheet, "sheet missing version\n");
    let close = edited(&rt, alloc, THREE, "every = 12", "every = 11");
    let line = "sheet arrivals c 1 0 11\n";
    expect(&rt, alloc, close.as_str(), Status::Sheet, line);
}

/// The sheet with a comment at the end that fills it up to so many bytes.
fn filled(rt: &impl Abort, alloc: Global, length: usize) -> String {
    let mut input = String::from_str(alloc, THREE).expect(rt, "no memory");
    add(rt, &mut input, "#");
    for _ in input.len()..length {
        add(rt, &mut input, "x");
    }
    input
}

#[test]
fn takes_inputs_up_to_their_longest(rt: HostRuntime) {
    let input = filled(&rt, rt.alloc(), 1_048_576);
    expect_done(&rt, rt.alloc(), input.as_str(), 4096);
}

#[test]
fn refuses_longer_inputs(rt: HostRuntime) {
    let input = filled(&rt, rt.alloc(), 1_048_577);
    expect(
        &rt,
        rt.alloc(),
        input.as_str(),
        Status::Sheet,
        "sheet long\n",
    );
}

/// A reader of a text in pieces of 100 bytes at most, that fails at the call with this number and doesn't tell its bytes.
#[derive(Drop)]
struct Faltering {
    text: &'static [u8],
    fails: u64,
    calls: u64,
}

impl Read for Faltering {
    fn read(&mut self, buf: &mut [u8]) -> io::Result<usize> {
        let fails = self.calls == self.fails;
        self.calls = self.calls.saturating_add(1);
        if fails {
            return Err(io::Error::from(ErrorKind::Other));
        }
        let count = buf.len().min(self.text.len()).min(100);
        buf[..count].copy_from_slice(&self.text[..count]);
        self.text = &self.text[count..];
        Ok(count)
    }
}

/// Compares that a run ends with nothing written, where the reader of std fails at the call with this number.
fn expect_faltering(rt: &impl Abort, alloc: Global, fails: u64) {
    let mut source = StdSource::new(Faltering {
        text: THREE.as_bytes(),
        fails,
        calls: 0,
    });
    let Trial { mut sink, .. } = trial(rt, alloc, &[], "", (&[], &[]), 4096);
    let status = run_assign(alloc, &[], &mut source, &mut sink);
    assert_eq!(rt; status, Status::ReadFault);
    assert!(rt; source.faults() == 1 && sink.bytes().is_empty());
}

#[test]
fn tells_a_failed_read_of_std_from_the_end(rt: HostRuntime) {
    for fails in 0..3 {
        expect_faltering(&rt, rt.alloc(), fails);
    }
}
