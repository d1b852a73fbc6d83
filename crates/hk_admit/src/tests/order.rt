//! The order of tasks and of refusals.
use super::{Case, H, Heap, TASK, Task, admit_all};
use std::test::Fail;

/// The order of tasks and of refusals.
const ORDER: &[Case] = &[
    // the first of two costs
    Case {
        heap: H,
        high: &[
            Task {
                cost: 2,
                period: 10,
                deadline: 10,
                script: "work 3",
                ..TASK
            },
            Task {
                cost: 2,
                period: 10,
                deadline: 10,
                script: "work 4",
                ..TASK
            },
        ],
        low: &[],
        wanted: "cost a need 3 declared 2",
    },
    // the second task's cost
    Case {
        heap: H,
        high: &[
            Task {
                cost: 2,
                period: 10,
                deadline: 10,
                script: "work 2",
                ..TASK
            },
            Task {
                cost: 2,
                period: 10,
                deadline: 10,
                script: "work 4",
                ..TASK
            },
        ],
        low: &[],
        wanted: "cost b need 4 declared 2",
    },
    // the second task's words
    Case {
        heap: H,
        high: &[
            Task {
                cost: 7,
                period: 1000,
                deadline: 1000,
                words: 3,
                script: "new r1 1 1",
                ..TASK
            },
            Task {
                cost: 14,
                period: 1000,
                deadline: 1000,
                words: 5,
                script: "new r1 1 1;new r1 1 1",
                ..TASK
            },
        ],
        low: &[],
        wanted: "words b need 6 declared 5",
    },
    // all costs go before all words
    Case {
        heap: H,
        high: &[
            Task {
                cost: 7,
                period: 1000,
                deadline: 1000,
                words: 2,
                script: "new r1 1 1",
                ..TASK
            },
            Task {
                cost: 2,
                period: 1000,
                deadline: 1000,
                script: "work 3",
                ..TASK
            },
        ],
        low: &[],
        wanted: "cost b need 3 declared 2",
    },
    // of one task the cost goes first
    Case {
        heap: H,
        high: &[Task {
            cost: 6,
            period: 1000,
            deadline: 1000,
            words: 2,
            script: "new r1 1 1",
            ..TASK
        }],
        low: &[],
        wanted: "cost a need 7 declared 6",
    },
    // all words go before all responses
    Case {
        heap: H,
        high: &[
            Task {
                cost: 10,
                period: 10,
                deadline: 9,
                script: "work 10",
                ..TASK
            },
            Task {
                cost: 7,
                period: 1000,
                deadline: 1000,
                words: 2,
                script: "new r1 1 1",
                ..TASK
            },
        ],
        low: &[],
        wanted: "words b need 3 declared 2",
    },
    // a response goes before the busy period
    Case {
        heap: H,
        high: &[Task {
            cost: 2,
            period: 10,
            deadline: 1,
            words: 1,
            script: "work 2",
            ..TASK
        }],
        low: &[],
        wanted: "response a",
    },
    // the busy period goes before the rate
    Case {
        heap: Heap { rate: 10, ..H },
        high: &[Task {
            cost: 2,
            period: 10,
            deadline: 10,
            words: 1,
            script: "work 2",
            ..TASK
        }],
        low: &["work 1"],
        wanted: "busy",
    },
    // the rate goes before the reserve
    Case {
        heap: Heap {
            alloc: 400,
            reserve: 12,
            rate: 8,
            ..H
        },
        high: &[Task {
            cost: 40,
            period: 1000,
            deadline: 1000,
            words: 3,
            script: "new r1 1 1;work 33",
            ..TASK
        }],
        low: &["new r1 1 1"],
        wanted: "rate have 3080 need 3429",
    },
    // a response goes before the rate
    Case {
        heap: H,
        high: &[
            Task {
                cost: 1,
                period: 4,
                deadline: 4,
                script: "work 1",
                ..TASK
            },
            Task {
                cost: 2,
                period: 6,
                deadline: 6,
                script: "work 2",
                ..TASK
            },
            Task {
                cost: 3,
                period: 12,
                deadline: 9,
                script: "work 3",
                ..TASK
            },
        ],
        low: &[],
        wanted: "response c",
    },
    // and before the reserve
    Case {
        heap: Heap { reserve: 12, ..H },
        high: &[Task {
            cost: 40,
            period: 1000,
            deadline: 39,
            words: 3,
            script: "new r1 1 1;work 33",
            ..TASK
        }],
        low: &["new r1 1 1"],
        wanted: "response a",
    },
];

#[test]
fn first_refusals(rt: HostRuntime) -> Result<(), Fail> {
    admit_all(&rt, rt.alloc(), ORDER)
}
