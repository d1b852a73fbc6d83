//! Release jitter. Each wanted line and tick is worked out from the rules of the sheet.
use super::{Case, edited, expect_each};
use crate::{Arrivals, High, Name, Sheet, read};
use hk_rta::Timing;
use std::alloc::Global;
use std::process::Abort;
use std::test::Fail;

/// The keys of the jitter.
const KEYS: &[Case] = &[
    Case {
        edits: &[("words = 7", "words = 7\njitter = 0")],
        wanted: "read",
    },
    Case {
        edits: &[("words = 7", "words = 7\njitter = 8")],
        wanted: "read",
    },
    Case {
        edits: &[("words = 7", "words = 7\njitter = 9")],
        wanted: "range high[0].jitter",
    },
    Case {
        edits: &[("words = 7", "words = 7\njitter = -1")],
        wanted: "range high[0].jitter",
    },
    Case {
        edits: &[("words = 7", "words = 7\njitter = 1.0")],
        wanted: "kind high[0].jitter",
    },
    Case {
        edits: &[("deadline = 9", "deadline = 1\njitter = 1")],
        wanted: "range high[0].jitter",
    },
    Case {
        edits: &[("deadline = 9", "deadline = 1\njitter = 0")],
        wanted: "read",
    },
    Case {
        edits: &[("words = 7", "words = 7\nlag = 0")],
        wanted: "read",
    },
    Case {
        edits: &[("words = 7", "words = 7\nlag = 16777216")],
        wanted: "read",
    },
    Case {
        edits: &[("words = 7", "words = 7\nlag = 16777217")],
        wanted: "range high[0].lag",
    },
    Case {
        edits: &[("words = 7", "words = 7\nlag = -1")],
        wanted: "range high[0].lag",
    },
    Case {
        edits: &[("words = 7", "words = 7\nlag = '1'")],
        wanted: "kind high[0].lag",
    },
    Case {
        edits: &[("arrivals", "jitter = 1\narrivals")],
        wanted: "unknown low[0].jitter",
    },
    Case {
        edits: &[("arrivals", "lag = 1\narrivals")],
        wanted: "unknown low[0].lag",
    },
    Case {
        edits: &[("words = 7", "words = -1\njitter = 9")],
        wanted: "range high[0].words",
    },
    Case {
        edits: &[("words = 7", "words = 7\nlag = -1\njitter = 9")],
        wanted: "range high[0].jitter",
    },
    Case {
        edits: &[
            ("words = 7", "words = 7\nlag = -1"),
            ("first = 6", "first = -1"),
        ],
        wanted: "range high[0].lag",
    },
    Case {
        edits: &[("deadline = 9", "deadline = 11\njitter = 11")],
        wanted: "range high[0].deadline",
    },
];

#[test]
fn refuses_jitter(rt: HostRuntime) -> Result<(), Fail> {
    expect_each(&rt, rt.alloc(), KEYS)?;
    Ok(())
}

/// A job, and the tick at which it is ready.
type Ready = (u64, Option<u64>);

/// Compares when the jobs of a task are ready with the wanted ticks.
fn expect_ready(rt: &impl Abort, task: &High, wanted: &[Ready]) {
    for (job, tick) in wanted {
        assert_eq!(rt; task.ready(*job), *tick);
    }
}

/// Compares the jitter and the lag of a sheet's high task, and when its jobs are ready, with the wanted ones.
fn expect_jitter(rt: &impl Abort, sheet: &Sheet, numbers: (u64, u64), wanted: &[Ready]) {
    match sheet.high.items.as_slice() {
        [high] => {
            assert_eq!(rt; (high.timing.jitter, high.lag), numbers);
            expect_ready(rt, high, wanted);
        }
        _ => panic!(rt; "a high task"),
    }
}

/// Reads the sheet with parts changed, and compares its jitter.
fn expect_edited(
    rt: &impl Abort,
    alloc: Global,
    edits: &[(&str, &str)],
    numbers: (u64, u64),
    wanted: &[Ready],
) -> Result<(), Fail> {
    let text = edited(rt, alloc, edits)?;
    expect_jitter(rt, &read(alloc, text.as_bytes())?, numbers, wanted);
    Ok(())
}

#[test]
fn reads_jitter(rt: HostRuntime) -> Result<(), Fail> {
    let edits = [
        ("period = 10", "period = 4"),
        ("deadline = 9", "deadline = 4"),
        ("words = 7", "words = 7\njitter = 3\nlag = 3"),
        ("first = 6\nevery = 11", "arrivals = [0, 4, 8]"),
    ];
    let wanted = [(0, Some(0)), (1, Some(7)), (2, Some(10)), (3, None)];
    expect_edited(&rt, rt.alloc(), &edits, (3, 3), &wanted)
}

#[test]
fn reads_no_jitter(rt: HostRuntime) -> Result<(), Fail> {
    let wanted = [(0, Some(6)), (2, Some(28))];
    expect_edited(&rt, rt.alloc(), &[], (0, 0), &wanted)
}

/// A task that arrives at multiples of a step after a first tick.
fn task(alloc: Global, first: u64, step: u64, jitter: u64, lag: u64) -> Result<High, Fail> {
    Ok(High {
        name: Name {
            items: Vec::from_slice(alloc, b"a")?,
        },
        timing: Timing {
            cost: 1,
            period: 1,
            deadline: 1,
            jitter,
        },
        words: 0,
        lag,
        arrivals: Arrivals::Every { first, step },
        script: hk_script::parse(alloc, b"work 1")?,
    })
}

/// Compares when the jobs of such a task are ready with the wanted ticks.
fn expect_task(
    rt: &impl Abort,
    alloc: Global,
    (first, step): (u64, u64),
    (jitter, lag): (u64, u64),
    wanted: &[Ready],
) -> Result<(), Fail> {
    expect_ready(rt, &task(alloc, first, step, jitter, lag)?, wanted);
    Ok(())
}

#[test]
fn ready_at_the_ends_of_numbers(rt: HostRuntime) -> Result<(), Fail> {
    const MAX: u64 = u64::MAX;
    let alloc = rt.alloc();
    // 2^40 * 2^30 = 2^70 = 8^23 * 2, which leaves 2 where it is divided by 7.
    expect_task(&rt, alloc, (5, 0), (6, 1 << 30), &[(1 << 40, Some(7))])?;
    // The second job is delayed by a tick past the last number.
    let one_late = [(0, Some(MAX)), (1, None)];
    expect_task(&rt, alloc, (MAX, 0), (1, 1), &one_late)?;
    // The arrival itself is past it.
    expect_task(&rt, alloc, (MAX, 1), (0, 0), &one_late)?;
    // The greatest jitter never goes round before the greatest number.
    let round = [(1, Some(MAX)), (2, Some(MAX - 1))];
    expect_task(&rt, alloc, (0, 0), (MAX, MAX), &round)
}
