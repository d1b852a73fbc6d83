//! Response times.
use super::{Case, H, Heap, TASK, Task, admit_all};
use std::test::Fail;

/// Responses.
const RESPONSES: &[Case] = &[
    // a cost that is the deadline
    Case {
        heap: H,
        high: &[Task {
            cost: 10,
            period: 10,
            deadline: 10,
            script: "work 10",
            ..TASK
        }],
        low: &[],
        wanted: "work 4179 attempt 0 busy 10 debt 0 responses 10",
    },
    // and one above it
    Case {
        heap: H,
        high: &[Task {
            cost: 10,
            period: 10,
            deadline: 9,
            script: "work 10",
            ..TASK
        }],
        low: &[],
        wanted: "response a",
    },
    // a third response at its deadline: 5, 11, 14, 17, 20
    Case {
        heap: Heap { rate: 12, ..H },
        high: &[
            Task {
                cost: 3,
                period: 7,
                deadline: 7,
                script: "work 3",
                ..TASK
            },
            Task {
                cost: 3,
                period: 12,
                deadline: 12,
                script: "work 3",
                ..TASK
            },
            Task {
                cost: 5,
                period: 20,
                deadline: 20,
                script: "work 5",
                ..TASK
            },
        ],
        low: &[],
        wanted: "work 4247 attempt 0 busy 20 debt 0 responses 3 6 20",
    },
    // and one tick late
    Case {
        heap: Heap { rate: 12, ..H },
        high: &[
            Task {
                cost: 3,
                period: 7,
                deadline: 7,
                script: "work 3",
                ..TASK
            },
            Task {
                cost: 3,
                period: 12,
                deadline: 12,
                script: "work 3",
                ..TASK
            },
            Task {
                cost: 5,
                period: 20,
                deadline: 19,
                script: "work 5",
                ..TASK
            },
        ],
        low: &[],
        wanted: "response c",
    },
    // 3 solves the second equation too, and 2 is the least
    Case {
        heap: H,
        high: &[
            Task {
                cost: 1,
                period: 2,
                deadline: 2,
                script: "work 1",
                ..TASK
            },
            Task {
                cost: 1,
                period: 4,
                deadline: 3,
                script: "work 1",
                ..TASK
            },
        ],
        low: &[],
        wanted: "work 4213 attempt 0 busy 2 debt 0 responses 1 2",
    },
    // the first of two late tasks
    Case {
        heap: Heap { rate: 12, ..H },
        high: &[
            Task {
                cost: 4,
                period: 8,
                deadline: 8,
                script: "work 4",
                ..TASK
            },
            Task {
                cost: 5,
                period: 16,
                deadline: 8,
                script: "work 5",
                ..TASK
            },
            Task {
                cost: 9,
                period: 30,
                deadline: 8,
                script: "work 9",
                ..TASK
            },
        ],
        low: &[],
        wanted: "response b",
    },
    // a later task that is in time doesn't hide an earlier one
    Case {
        heap: Heap { rate: 12, ..H },
        high: &[
            Task {
                cost: 4,
                period: 8,
                deadline: 3,
                script: "work 4",
                ..TASK
            },
            Task {
                cost: 5,
                period: 16,
                deadline: 16,
                script: "work 5",
                ..TASK
            },
        ],
        low: &[],
        wanted: "response a",
    },
    // a declared cost above the script's counts
    Case {
        heap: H,
        high: &[
            Task {
                cost: 4,
                period: 10,
                deadline: 10,
                script: "work 1",
                ..TASK
            },
            Task {
                cost: 2,
                period: 10,
                deadline: 10,
                script: "work 1",
                ..TASK
            },
        ],
        low: &[],
        wanted: "work 4213 attempt 0 busy 6 debt 0 responses 4 6",
    },
    // twenty tasks
    Case {
        heap: Heap { rate: 13, ..H },
        high: &[Task {
            cost: 1,
            period: 20,
            deadline: 20,
            script: "work 1",
            ..TASK
        }; 20],
        low: &[],
        wanted: "work 4825 attempt 0 busy 20 debt 0 responses 1 2 3 4 5 6 7 8 9 10 11 12 13 14 15 16 17 18 19 20",
    },
];

#[test]
fn response_times(rt: HostRuntime) -> Result<(), Fail> {
    admit_all(&rt, rt.alloc(), RESPONSES)
}
