//! The heap of a control application, sized step by step.
use super::{Case, H, Heap, TASK, Task, admit_all};
use std::test::Fail;

/// The scripts of a control application: three loops, a log and its statistics.
const FAST: &str =
    "job v0;get v1 r0 0;add v1 v0;put r0 0 v1;new r1 0 2;put r1 0 v0;put r1 1 v1;store r0 0 r1;clear r1;work 60;out v1";

const MID: &str =
    "load r1 r0 0;if null r1;else;get v0 r1 1;end;put r0 1 v0;work 120;clear r1;out v0";

const SLOW: &str = "get v0 r0 1;new r1 0 1;put r1 0 v0;store r0 1 r1;clear r1;work 200;out v0";

const LOG: &str =
    "job v0;new r1 1 2;put r1 0 v0;load r2 r0 2;if null r2;else;store r2 0 r3;end;store r1 0 r2;store r0 2 r1;clear r1;clear r2";

const STATS: &str = "load r1 r0 2;if null r1;else;get v0 r1 0;end;put r0 2 v0;clear r1;out v0";

/// The high tasks of a control application.
const LOOPS: &[Task] = &[
    Task {
        cost: 90,
        period: 500,
        deadline: 500,
        words: 3,
        script: FAST,
        ..TASK
    },
    Task {
        cost: 139,
        period: 1000,
        deadline: 1000,
        script: MID,
        ..TASK
    },
    Task {
        cost: 222,
        period: 2000,
        deadline: 2000,
        words: 2,
        script: SLOW,
        ..TASK
    },
];

/// The heap of a control application, sized step by step.
const SIZES: &[Case] = &[
    // a first guess
    Case {
        heap: Heap {
            live: 256,
            alloc: 1024,
            reserve: 128,
            rate: 5,
            board: (5, 4),
            ..H
        },
        high: LOOPS,
        low: &[LOG, STATS],
        wanted: "rate have 4460 need 9645",
    },
    // the least rate that will do
    Case {
        heap: Heap {
            live: 256,
            alloc: 1024,
            reserve: 128,
            board: (5, 4),
            ..H
        },
        high: LOOPS,
        low: &[LOG, STATS],
        wanted: "work 9645 attempt 47 busy 918 debt 367 responses 90 229 451",
    },
    // one less: 10 * 892
    Case {
        heap: Heap {
            live: 256,
            alloc: 1024,
            reserve: 128,
            rate: 10,
            board: (5, 4),
            ..H
        },
        high: LOOPS,
        low: &[LOG, STATS],
        wanted: "rate have 8920 need 9645",
    },
    // the least reserve that will do at that rate
    Case {
        heap: Heap {
            live: 256,
            alloc: 1024,
            reserve: 34,
            board: (5, 4),
            ..H
        },
        high: LOOPS,
        low: &[LOG, STATS],
        wanted: "work 9645 attempt 47 busy 918 debt 367 responses 90 229 451",
    },
    // one word less
    Case {
        heap: Heap {
            live: 256,
            alloc: 1024,
            reserve: 33,
            board: (5, 4),
            ..H
        },
        high: LOOPS,
        low: &[LOG, STATS],
        wanted: "reserve have 363 need 367",
    },
    // a small reserve leaves room for a lower rate
    Case {
        heap: Heap {
            live: 256,
            alloc: 1024,
            reserve: 36,
            rate: 10,
            board: (5, 4),
            ..H
        },
        high: LOOPS,
        low: &[LOG, STATS],
        wanted: "work 9645 attempt 47 busy 906 debt 355 responses 90 229 451",
    },
    // one word less
    Case {
        heap: Heap {
            live: 256,
            alloc: 1024,
            reserve: 35,
            rate: 10,
            board: (5, 4),
            ..H
        },
        high: LOOPS,
        low: &[LOG, STATS],
        wanted: "reserve have 350 need 355",
    },
];

#[test]
fn sizing(rt: HostRuntime) -> Result<(), Fail> {
    admit_all(&rt, rt.alloc(), SIZES)
}
