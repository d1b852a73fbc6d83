//! Whole runs: what is written for words and an input, and how the program ends. The texts are worked out by hand.
use super::{Case, text};
use crate::tool::run_ceiling;
use hk_io::{MemSink, MemSource, Status, Trial};
use hk_top::run_tool;
use std::alloc::{AllocError, Global};
use std::process::Abort;
use std::test::Fail;

/// Three tasks. The last comes first, and the others while it is at work.
pub(super) const THREE: &str = r#"version = 1
ticks = 20
heap = { live = 62, alloc = 512, reserve = 129, rate = 12, board = [2, 2] }

[[high]]
name = "a"
cost = 2
period = 10
deadline = 10
words = 0
arrivals = [2]
script = "work 2"

[[high]]
name = "b"
cost = 2
period = 20
deadline = 20
words = 0
arrivals = [2]
script = "work 2"

[[high]]
name = "c"
cost = 6
period = 40
deadline = 40
words = 0
arrivals = [0]
script = "work 6"
"#;

/// The sections of `a` and `c` on one resource.
pub(super) const SHARED: &[&str] = &["a:0:0:2", "c:0:1:4"];

/// What is written for them: each response time is reached.
pub(super) const REPORT: &str = "heap work 4247 attempt 0 busy 10 debt 0
high a response 5 deadline 10
high b response 7 deadline 20
high c response 10 deadline 40
done a jobs 1 latest 5
done b jobs 1 latest 7
done c jobs 1 latest 10
cycles 0 collector 0 idle 10
end 20
";

/// How a run ended, and its source and sink.
#[derive(Drop)]
pub(super) struct Ended {
    pub(super) status: Status,
    pub(super) source: MemSource,
    pub(super) sink: MemSink,
}

/// Runs some words on an input, where the calls with these numbers fail, and the sink has so much room.
pub(super) fn run(
    alloc: Global,
    words: &[&str],
    input: &str,
    fails: (&[u64], &[u64]),
    room: usize,
) -> Result<Ended, AllocError> {
    let Trial {
        words,
        mut source,
        mut sink,
    } = Trial::new(alloc, words, input.as_bytes(), fails, room)?;
    let status = run_ceiling(alloc, words.as_slice(), &mut source, &mut sink);
    Ok(Ended {
        status,
        source,
        sink,
    })
}

/// Compares how a run ended, and what it wrote.
fn expect_end(rt: &impl Abort, ended: &Ended, status: Status, text: &str) {
    assert_eq!(rt;
        (ended.status, ended.sink.bytes()),
        (status, text.as_bytes())
    );
}

/// Compares how a run of some words ends, and what it writes, where the calls with these numbers fail, and the sink has so much
/// room.
pub(super) fn expect_run(
    rt: &impl Abort,
    alloc: Global,
    words: &[&str],
    input: &str,
    fails: (&[u64], &[u64]),
    room: usize,
    wanted: (Status, &str),
) -> Result<(), AllocError> {
    let ended = run(alloc, words, input, fails, room)?;
    expect_end(rt, &ended, wanted.0, wanted.1);
    Ok(())
}

/// The same where nothing fails.
pub(super) fn expect(
    rt: &impl Abort,
    alloc: Global,
    words: &[&str],
    input: &str,
    status: Status,
    text: &str,
) -> Result<(), AllocError> {
    expect_run(rt, alloc, words, input, (&[], &[]), 4096, (status, text))
}

/// Compares the line that says why a sheet isn't admitted with the sections of some words.
pub(super) fn expect_refused(
    rt: &impl Abort,
    alloc: Global,
    words: &[&str],
    input: &str,
    line: &str,
) -> Result<(), AllocError> {
    let wanted = (Status::NotAdmitted, line);
    expect_run(rt, alloc, words, input, (&[], &[]), 100, wanted)
}

/// Words for a sheet, how the program ends, and what it writes.
struct WholeRun {
    words: &'static [&'static str],
    sheet: &'static str,
    status: Status,
    text: &'static str,
}

fn check_all(rt: &impl Abort, alloc: Global, runs: &[WholeRun]) -> Result<(), AllocError> {
    for wanted in runs {
        expect(
            rt,
            alloc,
            wanted.words,
            wanted.sheet,
            wanted.status,
            wanted.text,
        )?;
    }
    Ok(())
}

/// No words: plain priorities. `a` and `b` go before what is left of `c`.
const PLAIN: &str = "heap work 4247 attempt 0 busy 10 debt 0
high a response 2 deadline 10
high b response 4 deadline 20
high c response 10 deadline 40
done a jobs 1 latest 2
done b jobs 1 latest 4
done c jobs 1 latest 10
cycles 0 collector 0 idle 10
end 20
";

/// The section of `c` is of one tick, which is over as the others come.
const SHORT: &str = PLAIN;

/// The ceiling is `b`: ticks 0 and 1 go to `c`, 2 and 3 to `a`, 4 to 6 to `c`, 7 and 8 to `b`, and 9 to `c`.
const SECOND: &str = "heap work 4247 attempt 0 busy 10 debt 0
high a response 2 deadline 10
high b response 7 deadline 20
high c response 10 deadline 40
done a jobs 1 latest 2
done b jobs 1 latest 7
done c jobs 1 latest 10
cycles 0 collector 0 idle 10
end 20
";

/// The section of `c` is its whole job: ticks 0 to 5 go to `c`, 6 and 7 to `a`, 8 and 9 to `b`.
const WHOLE: &str = "heap work 4247 attempt 0 busy 10 debt 0
high a response 7 deadline 10
high b response 9 deadline 20
high c response 10 deadline 40
done a jobs 1 latest 6
done b jobs 1 latest 8
done c jobs 1 latest 6
cycles 0 collector 0 idle 10
end 20
";

const RUNS: &[WholeRun] = &[
    WholeRun {
        words: SHARED,
        sheet: THREE,
        status: Status::Done,
        text: REPORT,
    },
    WholeRun {
        words: &[],
        sheet: THREE,
        status: Status::Done,
        text: PLAIN,
    },
    WholeRun {
        words: &["a:63:0:2", "c:63:1:1"],
        sheet: THREE,
        status: Status::Done,
        text: SHORT,
    },
    WholeRun {
        words: &["b:7:0:2", "c:7:1:4"],
        sheet: THREE,
        status: Status::Done,
        text: SECOND,
    },
    WholeRun {
        words: &["a:0:0:2", "c:00000000:00000000:00000006"],
        sheet: THREE,
        status: Status::Done,
        text: WHOLE,
    },
    // the last tick alone
    WholeRun {
        words: &["a:0:0:2", "c:0:5:1"],
        sheet: THREE,
        status: Status::Done,
        text: PLAIN,
    },
];

#[test]
fn reports(rt: HostRuntime) -> Result<(), Fail> {
    check_all(&rt, rt.alloc(), RUNS)?;
    Ok(())
}

/// Words, and the line of their refusal: one past the cost, by its start or its length; no tick; resources above 63 and above
/// 255; no high task; one section into another.
const SECTIONS: &[(&[&str], &str)] = &[
    (&["a:0:0:2", "c:0:1:6"], "refused section 1\n"),
    (&["a:0:0:2", "c:0:6:1"], "refused section 1\n"),
    (&["c:0:99999999:99999999"], "refused section 0\n"),
    (&["a:0:0:2", "c:0:99999999:1"], "refused section 1\n"),
    (&["a:0:0:2", "c:0:0:99999999"], "refused section 1\n"),
    (&["c:0:1:0"], "refused section 0\n"),
    (&["a:63:0:2", "c:64:1:4"], "refused section 1\n"),
    (&["a:63:0:2", "c:255:1:4"], "refused section 1\n"),
    (&["a:63:0:2", "c:256:1:4"], "refused section 1\n"),
    (&["a:63:0:2", "c:319:1:4"], "refused section 1\n"),
    (&["a:63:0:2", "c:99999999:1:4"], "refused section 1\n"),
    (&["c:0:1:4", "a:0:0:2", "d:0:0:1"], "refused section 2\n"),
    (&["c:0:0:3", "a:0:0:1", "c:1:2:2"], "refused section 2\n"),
];

#[test]
fn refused_sections(rt: HostRuntime) -> Result<(), Fail> {
    for (words, text) in SECTIONS {
        expect_refused(&rt, rt.alloc(), *words, THREE, text)?;
    }
    Ok(())
}

/// Refusals of the sheet, in the order in which they are looked for.
const SHEETS: &[Case] = &[
    Case {
        high: &[(1, 10, 10, 0, 2)],
        words: &["a:0:0:2"],
        wanted: "refused section 0\n",
    },
    Case {
        high: &[(1, 10, 10, 0, 2)],
        words: &["a:0:0:1"],
        wanted: "refused cost a need 2 declared 1\n",
    },
    Case {
        high: &[(11, 10, 10, 1, 11)],
        words: &["a:0:0:1"],
        wanted: "refused busy\n",
    },
    Case {
        high: &[(2, 10, 4, 0, 2), (2, 20, 20, 1, 2), (6, 40, 40, 2, 6)],
        words: SHARED,
        wanted: "refused jitter b\n",
    },
    Case {
        high: &[(2, 10, 5, 0, 2), (2, 20, 6, 0, 2), (6, 40, 40, 0, 6)],
        words: SHARED,
        wanted: "refused response b\n",
    },
];

/// Compares the line that says why the sheet of a case isn't admitted.
fn expect_refusal(rt: &impl Abort, alloc: Global, case: &Case) -> Result<(), AllocError> {
    let sheet = text(alloc, case)?;
    expect_refused(rt, alloc, case.words, sheet.as_str(), case.wanted)
}

#[test]
fn refused_sheets(rt: HostRuntime) -> Result<(), Fail> {
    for case in SHEETS {
        expect_refusal(&rt, rt.alloc(), case)?;
    }
    Ok(())
}

/// Three tasks whose jobs come every period.
const PERIODIC: &str = r#"version = 1
ticks = 12
heap = { live = 62, alloc = 512, reserve = 129, rate = 12, board = [2, 2] }

[[high]]
name = "a"
cost = 1
period = 4
deadline = 4
words = 0
first = 0
every = 4
script = "work 1"

[[high]]
name = "b"
cost = 2
period = 6
deadline = 6
words = 0
first = 0
every = 6
script = "work 2"

[[high]]
name = "c"
cost = 3
period = 12
deadline = 12
words = 0
first = 0
every = 12
script = "work 3"
"#;

/// Runs the program of fixed priorities on an input.
fn run_by_priorities(alloc: Global, input: &str) -> Result<Ended, AllocError> {
    let Trial {
        words,
        mut source,
        mut sink,
    } = Trial::new(alloc, &["run"], input.as_bytes(), (&[], &[]), 4096)?;
    let status = run_tool(alloc, words.as_slice(), &mut source, &mut sink);
    Ok(Ended {
        status,
        source,
        sink,
    })
}

/// Without words the text is that of a run by priorities.
#[test]
fn no_words(rt: HostRuntime) -> Result<(), Fail> {
    let text = "heap work 4247 attempt 0 busy 10 debt 0
high a response 1 deadline 4
high b response 3 deadline 6
high c response 10 deadline 12
done a jobs 3 latest 1
done b jobs 2 latest 3
done c jobs 1 latest 10
cycles 0 collector 0 idle 2
end 12
";
    expect(&rt, rt.alloc(), &[], PERIODIC, Status::Done, text)?;
    let ended = run_by_priorities(rt.alloc(), PERIODIC)?;
    expect_end(&rt, &ended, Status::Done, text);
    Ok(())
}

/// More words are live than the sheet declares: the object and the board take 10 words, and 8 are declared.
const LIVE: &str = r#"version = 1
ticks = 100
heap = { live = 8, alloc = 512, reserve = 129, rate = 11, board = [2, 2] }

[[high]]
name = "a"
cost = 7
period = 1000
deadline = 1000
words = 5
arrivals = [0]
script = "new r1 1 3"
"#;

const OTHER_ENDS: &[WholeRun] = &[
    WholeRun {
        words: &["a:0:0:7"],
        sheet: LIVE,
        status: Status::Live,
        text: "heap work 3693 attempt 34 busy 96 debt 89\nhigh a response 7 deadline 1000\nlive 23 10 above 8\n",
    },
    WholeRun {
        words: SHARED,
        sheet: "",
        status: Status::Sheet,
        text: "sheet missing version\n",
    },
    WholeRun {
        words: &["d:99:0:0"],
        sheet: "x",
        status: Status::Sheet,
        text: "sheet text\n",
    },
];

#[test]
fn other_ends(rt: HostRuntime) -> Result<(), Fail> {
    check_all(&rt, rt.alloc(), OTHER_ENDS)?;
    Ok(())
}
