//! Busy periods.
use super::{Case, H, Heap, TASK, Task, admit_all};
use std::test::Fail;

/// Busy periods.
const BUSY_PERIODS: &[Case] = &[
    // a word is owed in each period: 13 ticks in 10
    Case {
        heap: H,
        high: &[Task {
            cost: 2,
            period: 10,
            deadline: 10,
            words: 1,
            script: "work 1;out v0",
            ..TASK
        }],
        low: &[],
        wanted: "busy",
    },
    // what is owed fills the period
    Case {
        heap: Heap { rate: 8, ..H },
        high: &[Task {
            cost: 2,
            period: 10,
            deadline: 10,
            words: 1,
            script: "work 1;out v0",
            ..TASK
        }],
        low: &[],
        wanted: "rate have 3064 need 4179",
    },
    // and with a smaller reserve the rate is enough
    Case {
        heap: Heap {
            live: 10,
            reserve: 16,
            rate: 8,
            ..H
        },
        high: &[Task {
            cost: 2,
            period: 10,
            deadline: 10,
            words: 1,
            script: "work 1;out v0",
            ..TASK
        }],
        low: &[],
        wanted: "work 3711 attempt 0 busy 10 debt 8 responses 2",
    },
    // one event more in each period
    Case {
        heap: Heap {
            live: 10,
            reserve: 16,
            rate: 9,
            ..H
        },
        high: &[Task {
            cost: 2,
            period: 10,
            deadline: 10,
            words: 1,
            script: "work 1;out v0",
            ..TASK
        }],
        low: &[],
        wanted: "busy",
    },
    // the longest busy period, with the 10 ticks of an operation
    Case {
        heap: H,
        high: &[Task {
            cost: 16777206,
            period: 16777216,
            deadline: 16777216,
            script: "work 1",
            ..TASK
        }],
        low: &["work 1"],
        wanted: "work 4213 attempt 0 busy 16777216 debt 0 responses 16777206",
    },
    // and one tick more
    Case {
        heap: H,
        high: &[Task {
            cost: 16777207,
            period: 16777216,
            deadline: 16777216,
            script: "work 1",
            ..TASK
        }],
        low: &["work 1"],
        wanted: "busy",
    },
    // the greatest numbers
    Case {
        heap: Heap { rate: 4096, ..H },
        high: &[Task {
            cost: 16777216,
            period: 16777216,
            deadline: 16777216,
            words: 16777216,
            script: "work 1",
            ..TASK
        }],
        low: &[],
        wanted: "busy",
    },
    // several arrivals in the busy period: 140, 205, 270
    Case {
        heap: H,
        high: &[
            Task {
                cost: 10,
                period: 100,
                deadline: 100,
                words: 5,
                script: "work 1",
                ..TASK
            },
            Task {
                cost: 20,
                period: 300,
                deadline: 300,
                words: 5,
                script: "work 1",
                ..TASK
            },
        ],
        low: &[],
        wanted: "work 4213 attempt 0 busy 270 debt 220 responses 10 30",
    },
    // and an operation before it: 10, 150, 215, 280
    Case {
        heap: Heap { live: 50, ..H },
        high: &[
            Task {
                cost: 10,
                period: 100,
                deadline: 100,
                words: 5,
                script: "work 1",
                ..TASK
            },
            Task {
                cost: 20,
                period: 300,
                deadline: 300,
                words: 5,
                script: "work 1",
                ..TASK
            },
        ],
        low: &["work 1"],
        wanted: "work 4139 attempt 0 busy 280 debt 220 responses 10 30",
    },
    // a busy period that ends as the next job arrives
    Case {
        heap: H,
        high: &[Task {
            cost: 10,
            period: 65,
            deadline: 65,
            words: 5,
            script: "work 1",
            ..TASK
        }],
        low: &[],
        wanted: "work 4179 attempt 0 busy 65 debt 55 responses 10",
    },
    // no high task: 10 ticks of an operation wait
    Case {
        heap: H,
        high: &[],
        low: &["work 1"],
        wanted: "work 4179 attempt 0 busy 10 debt 0 responses",
    },
    // and the events of an object and an attempt
    Case {
        heap: H,
        high: &[],
        low: &["new r1 1 1"],
        wanted: "work 4179 attempt 34 busy 77 debt 67 responses",
    },
    // the words of a low task's object aren't sure
    Case {
        heap: H,
        high: &[],
        low: &["new r1 1 2"],
        wanted: "rate have 4169 need 4179",
    },
    // the largest of two low tasks' objects counts
    Case {
        heap: H,
        high: &[],
        low: &["new r1 1 1", "new r1 1 2"],
        wanted: "rate have 4169 need 4213",
    },
    // in whatever order
    Case {
        heap: H,
        high: &[],
        low: &["new r1 1 2", "new r1 1 1"],
        wanted: "rate have 4169 need 4213",
    },
    // a high task's object doesn't
    Case {
        heap: H,
        high: &[Task {
            cost: 7,
            period: 1000,
            deadline: 1000,
            words: 4,
            script: "new r1 1 2",
            ..TASK
        }],
        low: &[],
        wanted: "work 4179 attempt 34 busy 85 debt 78 responses 7",
    },
];

#[test]
fn busy_periods(rt: HostRuntime) -> Result<(), Fail> {
    admit_all(&rt, rt.alloc(), BUSY_PERIODS)
}
