//! Sheets whose response times are not looked at.
use super::{Case, H, Heap, TASK, Task, check_all};
use std::test::Fail;

/// The same, where responses aren't looked at.
const HEAP_CASES: &[Case] = &[
    // a late response isn't looked at
    Case {
        heap: Heap { rate: 12, ..H },
        high: &[
            Task {
                cost: 1,
                period: 4,
                deadline: 4,
                script: "work 1",
                ..TASK
            },
            Task {
                cost: 2,
                period: 6,
                deadline: 6,
                script: "work 2",
                ..TASK
            },
            Task {
                cost: 3,
                period: 12,
                deadline: 9,
                script: "work 3",
                ..TASK
            },
        ],
        low: &[],
        wanted: "work 4247 attempt 0 busy 10 debt 0",
    },
    // nor one that is in time
    Case {
        heap: H,
        high: &[Task {
            cost: 2,
            period: 10,
            deadline: 10,
            script: "work 1;out v0",
            ..TASK
        }],
        low: &[],
        wanted: "work 4179 attempt 0 busy 2 debt 0",
    },
    // behind it a busy period without an end
    Case {
        heap: H,
        high: &[Task {
            cost: 2,
            period: 10,
            deadline: 1,
            words: 1,
            script: "work 2",
            ..TASK
        }],
        low: &[],
        wanted: "busy",
    },
    // two tasks for which only another order of jobs is in time
    Case {
        heap: H,
        high: &[
            Task {
                cost: 2,
                period: 5,
                deadline: 5,
                script: "work 2",
                ..TASK
            },
            Task {
                cost: 4,
                period: 7,
                deadline: 7,
                script: "work 4",
                ..TASK
            },
        ],
        low: &[],
        wanted: "work 4213 attempt 0 busy 14 debt 0",
    },
    // behind it a rate
    Case {
        heap: H,
        high: &[
            Task {
                cost: 1,
                period: 4,
                deadline: 4,
                script: "work 1",
                ..TASK
            },
            Task {
                cost: 2,
                period: 6,
                deadline: 6,
                script: "work 2",
                ..TASK
            },
            Task {
                cost: 3,
                period: 12,
                deadline: 9,
                script: "work 3",
                ..TASK
            },
        ],
        low: &[],
        wanted: "rate have 4213 need 4247",
    },
    // behind it a reserve
    Case {
        heap: Heap { reserve: 12, ..H },
        high: &[Task {
            cost: 40,
            period: 1000,
            deadline: 39,
            words: 3,
            script: "new r1 1 1;work 33",
            ..TASK
        }],
        low: &["new r1 1 1"],
        wanted: "reserve have 132 need 134",
    },
    // a cost, before words
    Case {
        heap: H,
        high: &[
            Task {
                cost: 7,
                period: 1000,
                deadline: 1,
                words: 2,
                script: "new r1 1 1",
                ..TASK
            },
            Task {
                cost: 2,
                period: 1000,
                deadline: 1,
                script: "work 3",
                ..TASK
            },
        ],
        low: &[],
        wanted: "cost b need 3 declared 2",
    },
    // words
    Case {
        heap: H,
        high: &[
            Task {
                cost: 10,
                period: 10,
                deadline: 9,
                script: "work 10",
                ..TASK
            },
            Task {
                cost: 7,
                period: 1000,
                deadline: 1000,
                words: 2,
                script: "new r1 1 1",
                ..TASK
            },
        ],
        low: &[],
        wanted: "words b need 3 declared 2",
    },
];

#[test]
fn heaps_alone(rt: HostRuntime) -> Result<(), Fail> {
    check_all(&rt, rt.alloc(), HEAP_CASES)
}
