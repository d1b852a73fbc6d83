//! Release jitter.
use super::{Case, H, Heap, TASK, Task, admit_all};
use std::test::Fail;

const JITTER: &[Case] = &[
    // four jobs of the first task may become ready in 11 ticks: 3, 7, 10, 11
    Case {
        heap: Heap { rate: 12, ..H },
        high: &[
            Task {
                cost: 1,
                period: 4,
                deadline: 4,
                jitter: 3,
                script: "work 1",
                ..TASK
            },
            Task {
                cost: 2,
                period: 6,
                deadline: 6,
                script: "work 2",
                ..TASK
            },
            Task {
                cost: 3,
                period: 12,
                deadline: 12,
                script: "work 3",
                ..TASK
            },
        ],
        low: &[],
        wanted: "work 4247 attempt 0 busy 11 debt 0 responses 4 4 11",
    },
    // the last task has 10 ticks
    Case {
        heap: Heap { rate: 12, ..H },
        high: &[
            Task {
                cost: 1,
                period: 4,
                deadline: 4,
                jitter: 3,
                script: "work 1",
                ..TASK
            },
            Task {
                cost: 2,
                period: 6,
                deadline: 6,
                script: "work 2",
                ..TASK
            },
            Task {
                cost: 3,
                period: 12,
                deadline: 10,
                script: "work 3",
                ..TASK
            },
        ],
        low: &[],
        wanted: "response c",
    },
    // the own jitter counts once: 1 + 3 is the deadline
    Case {
        heap: H,
        high: &[Task {
            period: 10,
            deadline: 4,
            jitter: 3,
            ..TASK
        }],
        low: &[],
        wanted: "work 4179 attempt 0 busy 1 debt 0 responses 4",
    },
    // and a tick more is too late
    Case {
        heap: H,
        high: &[Task {
            cost: 2,
            period: 10,
            deadline: 4,
            jitter: 3,
            ..TASK
        }],
        low: &[],
        wanted: "response a",
    },
    // the busy period and 4 ticks of jitter fill a period
    Case {
        heap: H,
        high: &[Task {
            cost: 6,
            period: 10,
            deadline: 10,
            jitter: 4,
            ..TASK
        }],
        low: &[],
        wanted: "work 4179 attempt 0 busy 6 debt 0 responses 10",
    },
    // loads of 7 + 33 + 34 = 74 each 100 ticks: 74 ticks and 26 of jitter are one period
    Case {
        heap: H,
        high: &[Task {
            cost: 7,
            period: 100,
            deadline: 100,
            words: 3,
            jitter: 26,
            script: "new r1 1 1",
        }],
        low: &[],
        wanted: "work 4179 attempt 34 busy 74 debt 67 responses 33",
    },
    // and with 27 there are two jobs in 74 ticks, and two in 148 + 27
    Case {
        heap: H,
        high: &[Task {
            cost: 7,
            period: 100,
            deadline: 100,
            words: 3,
            jitter: 27,
            script: "new r1 1 1",
        }],
        low: &[],
        wanted: "work 4179 attempt 34 busy 148 debt 134 responses 34",
    },
    // the reserve lasts for one job's 67 events: 11 * 7
    Case {
        heap: Heap { reserve: 7, ..H },
        high: &[Task {
            cost: 7,
            period: 100,
            deadline: 100,
            words: 3,
            jitter: 26,
            script: "new r1 1 1",
        }],
        low: &[],
        wanted: "work 4179 attempt 34 busy 74 debt 67 responses 33",
    },
    // and not for those of two
    Case {
        heap: Heap { reserve: 7, ..H },
        high: &[Task {
            cost: 7,
            period: 100,
            deadline: 100,
            words: 3,
            jitter: 27,
            script: "new r1 1 1",
        }],
        low: &[],
        wanted: "reserve have 77 need 134",
    },
    // all ticks are taken: 3 of each 4, and 1 of each 4
    Case {
        heap: H,
        high: &[
            Task {
                cost: 3,
                period: 4,
                deadline: 4,
                script: "work 3",
                ..TASK
            },
            Task {
                cost: 1,
                period: 4,
                deadline: 4,
                script: "work 1",
                ..TASK
            },
        ],
        low: &[],
        wanted: "work 4213 attempt 0 busy 4 debt 0 responses 3 4",
    },
    // a tick of jitter brings one job more: 4, 7
    Case {
        heap: H,
        high: &[
            Task {
                cost: 3,
                period: 4,
                deadline: 4,
                jitter: 1,
                script: "work 3",
                ..TASK
            },
            Task {
                cost: 1,
                period: 8,
                deadline: 8,
                script: "work 1",
                ..TASK
            },
        ],
        low: &[],
        wanted: "work 4213 attempt 0 busy 7 debt 0 responses 4 7",
    },
    // 10 ticks of an operation wait: 11, 14, 15
    Case {
        heap: H,
        high: &[Task {
            cost: 1,
            period: 4,
            deadline: 4,
            jitter: 3,
            script: "work 1",
            ..TASK
        }],
        low: &["work 1"],
        wanted: "work 4213 attempt 0 busy 15 debt 0 responses 4",
    },
];

#[test]
fn release_jitter(rt: HostRuntime) -> Result<(), Fail> {
    admit_all(&rt, rt.alloc(), JITTER)
}
