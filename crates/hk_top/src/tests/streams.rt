//! Which words are taken, and what happens where the input or the output fails.
use super::{
    ANALYSIS, CHECK, REPORT, RUN, SMALLEST, TRACE, add, edited, expect, expect_end, expect_part,
    run, trial,
};
use crate::run_tool;
use hk_io::{MemSink, Status, StdSource, Trial};
use std::alloc::Global;
use std::io;
use std::io::{ErrorKind, Read};
use std::process::Abort;

const USAGE: &str = "usage: henri check, run [--trace], gen N, sim N\n";

/// Words that ask for nothing.
const WRONG: &[&[&str]] = &[
    &[],
    &["RUN"],
    &["run "],
    &["ru"],
    &["run", "x"],
    &["run", "--"],
    &["run", "run"],
    &["check", "x"],
    &["--trace", "run"],
    &["run", "--trace", "x"],
    &["gen"],
];

/// Compares how words end that read nothing, where these calls of the sink fail: each call of the source would fail.
fn expect_unread(
    rt: &impl Abort,
    alloc: Global,
    words: &[&str],
    fails: &[u64],
    status: Status,
    text: &str,
) {
    let ended = run(rt, alloc, words, SMALLEST, (&[0], fails), 100);
    assert!(rt; ended.source.calls() == 0);
    expect_end(rt, &ended, status, text);
}

#[test]
fn refuses_other_words_before_it_reads(rt: HostRuntime) {
    for words in WRONG {
        expect_unread(&rt, rt.alloc(), words, &[], Status::Usage, USAGE);
        expect_unread(&rt, rt.alloc(), words, &[0], Status::WriteFault, "");
    }
}

/// The forms that read a sheet.
const FORMS: &[&[&str]] = &[CHECK, RUN, TRACE];

/// Words, the calls of the source and of the sink that fail, the room of the sink, and how the program ends on the smallest
/// sheet and what it writes.
#[derive(Clone, Copy)]
struct Failing {
    words: &'static [&'static str],
    reads: &'static [u64],
    writes: &'static [u64],
    room: usize,
    status: Status,
    text: &'static str,
}

const FAILING: &[Failing] = &[
    // There are two calls of the source: one for all bytes, and one that finds the end. A third one would fail.
    Failing {
        words: CHECK,
        reads: &[0],
        writes: &[],
        room: 1000,
        status: Status::ReadFault,
        text: "",
    },
    Failing {
        words: CHECK,
        reads: &[1],
        writes: &[],
        room: 1000,
        status: Status::ReadFault,
        text: "",
    },
    Failing {
        words: RUN,
        reads: &[0],
        writes: &[],
        room: 1000,
        status: Status::ReadFault,
        text: "",
    },
    Failing {
        words: RUN,
        reads: &[1],
        writes: &[],
        room: 1000,
        status: Status::ReadFault,
        text: "",
    },
    Failing {
        words: TRACE,
        reads: &[0],
        writes: &[],
        room: 1000,
        status: Status::ReadFault,
        text: "",
    },
    Failing {
        words: TRACE,
        reads: &[1],
        writes: &[],
        room: 1000,
        status: Status::ReadFault,
        text: "",
    },
    Failing {
        words: RUN,
        reads: &[2],
        writes: &[],
        room: 1000,
        status: Status::Done,
        text: REPORT,
    },
    // The analysis goes out in one piece, and what one job does in another. A third call of the sink would fail.
    Failing {
        words: CHECK,
        reads: &[],
        writes: &[0],
        room: 1000,
        status: Status::WriteFault,
        text: "",
    },
    Failing {
        words: RUN,
        reads: &[],
        writes: &[0],
        room: 1000,
        status: Status::WriteFault,
        text: "",
    },
    Failing {
        words: TRACE,
        reads: &[],
        writes: &[0],
        room: 1000,
        status: Status::WriteFault,
        text: "",
    },
    Failing {
        words: RUN,
        reads: &[],
        writes: &[1],
        room: 1000,
        status: Status::WriteFault,
        text: ANALYSIS,
    },
    Failing {
        words: RUN,
        reads: &[],
        writes: &[2],
        room: REPORT.len(),
        status: Status::Done,
        text: REPORT,
    },
    // Room for fewer bytes than the report has.
    Failing {
        words: RUN,
        reads: &[],
        writes: &[],
        room: 0,
        status: Status::WriteFault,
        text: "",
    },
    Failing {
        words: RUN,
        reads: &[],
        writes: &[],
        room: 1,
        status: Status::WriteFault,
        text: "h",
    },
    Failing {
        words: RUN,
        reads: &[],
        writes: &[],
        room: 40,
        status: Status::WriteFault,
        text: "heap work 4179 attempt 0 busy 2 debt 0\nh",
    },
    Failing {
        words: RUN,
        reads: &[],
        writes: &[],
        room: REPORT.len() - 1,
        status: Status::WriteFault,
        text: "heap work 4179 attempt 0 busy 2 debt 0
high a response 2 deadline 10
out 1 a 0
done a jobs 1 latest 2
cycles 0 collector 0 idle 8
end 10",
    },
    // What is made for a number.
    Failing {
        words: &["gen", "7"],
        reads: &[0],
        writes: &[0],
        room: 65536,
        status: Status::WriteFault,
        text: "",
    },
];

fn expect_failing(rt: &impl Abort, alloc: Global, cases: &[Failing]) {
    for case in cases {
        let fails = (case.reads, case.writes);
        let ended = run(rt, alloc, case.words, SMALLEST, fails, case.room);
        expect_end(rt, &ended, case.status, case.text);
    }
}

#[test]
fn tells_failures_from_ends(rt: HostRuntime) {
    expect_failing(&rt, rt.alloc(), FAILING);
}

/// Compares that each call to write that fails, so many there are, leaves a first part of a text.
fn expect_parts(rt: &impl Abort, alloc: Global, input: &str, calls: u64, text: &str) {
    for call in 0..calls {
        let ended = run(rt, alloc, RUN, input, (&[], &[call]), 65536);
        expect_part(rt, &ended, text);
    }
}

/// The line of a refusal.
#[test]
fn leaves_a_prefix_of_a_refusal(rt: HostRuntime) {
    let alloc = rt.alloc();
    let input = edited(&rt, alloc, SMALLEST, "every = 10", "every = 9");
    let line = "sheet arrivals a 1 0 9\n";
    let whole = run(&rt, alloc, RUN, input.as_str(), (&[], &[]), line.len());
    expect_end(&rt, &whole, Status::Sheet, line);
    expect_parts(&rt, alloc, input.as_str(), whole.sink.calls(), line);
}

/// The report of 4,000 jobs, each of which puts out at its second tick.
fn longer_report(rt: &impl Abort, alloc: Global) -> String {
    let mut text = String::from_str(alloc, ANALYSIS).expect(rt, "no memory");
    for job in 0..4000_u32 {
        let tick = 10 * u64::from(job) + 1;
        let line = format!(in alloc; "out {tick} a 0\n").expect(rt, "no memory");
        add(rt, &mut text, line.as_str());
    }
    let last = "done a jobs 4000 latest 2\ncycles 0 collector 0 idle 32000\nend 40000\n";
    add(rt, &mut text, last);
    text
}

/// Compares that a run went out in several pieces, each of them large.
fn expect_large_pieces(rt: &impl Abort, sink: &MemSink) {
    assert!(rt; sink.calls() > 2);
    assert!(rt; sink.bytes().len() as u64 / sink.calls() > 4000);
}

#[test]
fn leaves_a_prefix_of_a_longer_report(rt: HostRuntime) {
    let alloc = rt.alloc();
    let input = edited(&rt, alloc, SMALLEST, "ticks = 10", "ticks = 40000");
    let text = longer_report(&rt, alloc);
    let whole = run(&rt, alloc, RUN, input.as_str(), (&[], &[]), 65536);
    expect_end(&rt, &whole, Status::Done, text.as_str());
    expect_large_pieces(&rt, &whole.sink);
    expect_parts(
        &rt,
        alloc,
        input.as_str(),
        whole.sink.calls(),
        text.as_str(),
    );
}

/// The smallest sheet with a comment at the end that fills it up to so many bytes.
fn filled(rt: &impl Abort, alloc: Global, length: usize) -> String {
    let mut input = String::from_str(alloc, SMALLEST).expect(rt, "no memory");
    add(rt, &mut input, "#");
    for _ in input.len()..length {
        add(rt, &mut input, "x");
    }
    input
}

#[test]
fn takes_inputs_up_to_their_longest(rt: HostRuntime) {
    let input = filled(&rt, rt.alloc(), 1_048_576);
    expect(&rt, rt.alloc(), RUN, input.as_str(), Status::Done, REPORT);
}

#[test]
fn refuses_longer_inputs(rt: HostRuntime) {
    let input = filled(&rt, rt.alloc(), 1_048_577);
    for words in FORMS {
        expect(
            &rt,
            rt.alloc(),
            words,
            input.as_str(),
            Status::Sheet,
            "sheet long\n",
        );
    }
}

/// A reader of a text in pieces of 100 bytes at most, that fails at the call with this number and doesn't tell its bytes.
#[derive(Drop)]
struct Faltering {
    text: &'static [u8],
    fails: u64,
    calls: u64,
}

impl Read for Faltering {
    fn read(&mut self, buf: &mut [u8]) -> io::Result<usize> {
        let fails = self.calls == self.fails;
        self.calls = self.calls.saturating_add(1);
        if fails {
            return Err(io::Error::from(ErrorKind::Other));
        }
        let count = buf.len().min(self.text.len()).min(100);
        buf[..count].copy_from_slice(&self.text[..count]);
        self.text = &self.text[count..];
        Ok(count)
    }
}

/// Runs the smallest sheet from a reader of std that fails at the call with this number, and compares how often it failed, how
/// the run ends and what it writes.
fn expect_faltering(
    rt: &impl Abort,
    alloc: Global,
    fails: u64,
    faults: u64,
    status: Status,
    text: &str,
) {
    let mut source = StdSource::new(Faltering {
        text: SMALLEST.as_bytes(),
        fails,
        calls: 0,
    });
    let trial = Trial::new(alloc, RUN, &[], (&[], &[]), 1000);
    let Trial {
        words,
        mut sink,
        ..
    } = trial.expect(rt, "no memory");
    let ended = run_tool(alloc, words.as_slice(), &mut source, &mut sink);
    assert_eq!(rt; ended, status);
    assert!(rt; source.faults() == faults && sink.bytes() == text.as_bytes());
}

/// The sheet has 210 bytes: three calls, and one that finds the end.
#[test]
fn tells_a_failed_read_of_std_from_the_end(rt: HostRuntime) {
    for fails in 0..4 {
        expect_faltering(&rt, rt.alloc(), fails, 1, Status::ReadFault, "");
    }
    expect_faltering(&rt, rt.alloc(), 4, 0, Status::Done, REPORT);
}
