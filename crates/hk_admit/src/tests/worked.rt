//! Sheets that are whole, and such that fall short by one.
use super::{Case, H, Heap, TASK, Task, admit_all};
use std::test::Fail;

/// Sheets that are whole, and such that fall short by one. All tables are worked by hand.
const WHOLE: &[Case] = &[
    // the smallest run
    Case {
        heap: H,
        high: &[Task {
            cost: 2,
            period: 10,
            deadline: 10,
            script: "work 1;out v0",
            ..TASK
        }],
        low: &[],
        wanted: "work 4179 attempt 0 busy 2 debt 0 responses 2",
    },
    // three tasks
    Case {
        heap: Heap { rate: 12, ..H },
        high: &[
            Task {
                cost: 1,
                period: 4,
                deadline: 4,
                script: "work 1",
                ..TASK
            },
            Task {
                cost: 2,
                period: 6,
                deadline: 6,
                script: "work 2",
                ..TASK
            },
            Task {
                cost: 3,
                period: 12,
                deadline: 12,
                script: "work 3",
                ..TASK
            },
        ],
        low: &[],
        wanted: "work 4247 attempt 0 busy 10 debt 0 responses 1 3 10",
    },
    // the last response is one tick late
    Case {
        heap: Heap { rate: 12, ..H },
        high: &[
            Task {
                cost: 1,
                period: 4,
                deadline: 4,
                script: "work 1",
                ..TASK
            },
            Task {
                cost: 2,
                period: 6,
                deadline: 6,
                script: "work 2",
                ..TASK
            },
            Task {
                cost: 3,
                period: 12,
                deadline: 9,
                script: "work 3",
                ..TASK
            },
        ],
        low: &[],
        wanted: "response c",
    },
    // the rate is met exactly
    Case {
        heap: H,
        high: &[Task {
            cost: 2,
            period: 10,
            deadline: 10,
            script: "work 1;out v0",
            ..TASK
        }],
        low: &["work 1"],
        wanted: "work 4213 attempt 0 busy 14 debt 0 responses 2",
    },
    // and is short
    Case {
        heap: Heap { rate: 10, ..H },
        high: &[Task {
            cost: 2,
            period: 10,
            deadline: 10,
            script: "work 1;out v0",
            ..TASK
        }],
        low: &["work 1"],
        wanted: "rate have 3830 need 4213",
    },
    // a reserve that lasts
    Case {
        heap: Heap { reserve: 13, ..H },
        high: &[Task {
            cost: 40,
            period: 1000,
            deadline: 1000,
            words: 3,
            script: "new r1 1 1;work 33",
            ..TASK
        }],
        low: &["new r1 1 1"],
        wanted: "work 4213 attempt 34 busy 184 debt 134 responses 40",
    },
    // and one that doesn't
    Case {
        heap: Heap { reserve: 12, ..H },
        high: &[Task {
            cost: 40,
            period: 1000,
            deadline: 1000,
            words: 3,
            script: "new r1 1 1;work 33",
            ..TASK
        }],
        low: &["new r1 1 1"],
        wanted: "reserve have 132 need 134",
    },
    // a cost below the script's
    Case {
        heap: H,
        high: &[Task {
            cost: 1,
            period: 10,
            deadline: 10,
            script: "work 1;out v0",
            ..TASK
        }],
        low: &[],
        wanted: "cost a need 2 declared 1",
    },
    // two tasks that enter objects
    Case {
        heap: H,
        high: &[
            Task {
                cost: 7,
                period: 1000,
                deadline: 1000,
                words: 5,
                script: "new r1 1 3",
                ..TASK
            },
            Task {
                cost: 8,
                period: 1000,
                deadline: 1000,
                script: "set v0 7;put r0 0 v0;get v1 r0 0;out v1",
                ..TASK
            },
        ],
        low: &[],
        wanted: "work 4213 attempt 34 busy 138 debt 123 responses 7 15",
    },
    // live at 10
    Case {
        heap: Heap { live: 10, ..H },
        high: &[Task {
            cost: 7,
            period: 1000,
            deadline: 1000,
            words: 5,
            script: "new r1 1 3",
            ..TASK
        }],
        low: &[],
        wanted: "work 3711 attempt 34 busy 96 debt 89 responses 7",
    },
];

#[test]
fn worked_sheets(rt: HostRuntime) -> Result<(), Fail> {
    admit_all(&rt, rt.alloc(), WHOLE)
}
