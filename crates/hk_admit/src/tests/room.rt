//! Attempts, the rate and the reserve.
use super::{Case, H, Heap, TASK, Task, admit_all};
use std::test::Fail;

/// Attempts.
const ATTEMPTS: &[Case] = &[
    // a board of 63 words: 2 + 5 * 62
    Case {
        heap: Heap {
            live: 64,
            board: (31, 31),
            ..H
        },
        high: &[Task {
            cost: 7,
            period: 1000,
            deadline: 1000,
            words: 2,
            script: "new r1 1 0",
            ..TASK
        }],
        low: &[],
        wanted: "work 4197 attempt 312 busy 341 debt 334 responses 7",
    },
    // nothing is made, so no attempt is spoiled
    Case {
        heap: Heap {
            live: 64,
            board: (31, 31),
            ..H
        },
        high: &[Task {
            cost: 1,
            period: 10,
            deadline: 10,
            script: "work 1",
            ..TASK
        }],
        low: &[],
        wanted: "work 4197 attempt 0 busy 1 debt 0 responses 1",
    },
    // a low task's object is the largest: 2 + 5 * 9
    Case {
        heap: Heap { rate: 12, ..H },
        high: &[Task {
            cost: 1,
            period: 1000,
            deadline: 1000,
            script: "work 1",
            ..TASK
        }],
        low: &["new r1 4 5"],
        wanted: "work 4213 attempt 47 busy 225 debt 214 responses 1",
    },
    // a board of 7 words: a frame's 34 events are more than 32
    Case {
        heap: Heap { board: (2, 4), ..H },
        high: &[Task {
            cost: 7,
            period: 1000,
            deadline: 1000,
            words: 2,
            script: "new r1 1 0",
            ..TASK
        }],
        low: &[],
        wanted: "work 4179 attempt 34 busy 63 debt 56 responses 7",
    },
    // a board of 8 words: 37 events
    Case {
        heap: Heap { board: (2, 5), ..H },
        high: &[Task {
            cost: 7,
            period: 1000,
            deadline: 1000,
            words: 2,
            script: "new r1 1 0",
            ..TASK
        }],
        low: &[],
        wanted: "work 4179 attempt 37 busy 66 debt 59 responses 7",
    },
    // a script that makes an object in a block alone
    Case {
        heap: H,
        high: &[Task {
            cost: 14,
            period: 1000,
            deadline: 1000,
            words: 3,
            script: "if v0 < v1;else;new r1 1 1;end;work 6",
            ..TASK
        }],
        low: &[],
        wanted: "work 4179 attempt 34 busy 81 debt 67 responses 14",
    },
];

/// The rate and the reserve.
const ROOM: &[Case] = &[
    // no word is outside the reserve
    Case {
        heap: Heap { reserve: 512, ..H },
        high: &[Task {
            cost: 2,
            period: 10,
            deadline: 10,
            script: "work 1",
            ..TASK
        }],
        low: &[],
        wanted: "rate have 0 need 4179",
    },
    // fewer words are outside than an object has
    Case {
        heap: Heap { reserve: 510, ..H },
        high: &[Task {
            cost: 2,
            period: 1000,
            deadline: 1000,
            script: "work 1",
            ..TASK
        }],
        low: &["new r1 1 1"],
        wanted: "rate have 0 need 4213",
    },
    // as many as an object has
    Case {
        heap: Heap { reserve: 509, ..H },
        high: &[Task {
            cost: 2,
            period: 1000,
            deadline: 1000,
            script: "work 1",
            ..TASK
        }],
        low: &["new r1 1 1"],
        wanted: "rate have 0 need 4213",
    },
    // one word more
    Case {
        heap: Heap { reserve: 508, ..H },
        high: &[Task {
            cost: 2,
            period: 1000,
            deadline: 1000,
            script: "work 1",
            ..TASK
        }],
        low: &["new r1 1 1"],
        wanted: "rate have 11 need 4213",
    },
    // a larger live part asks for more events
    Case {
        heap: Heap { live: 64, ..H },
        high: &[Task {
            cost: 2,
            period: 10,
            deadline: 10,
            script: "work 1",
            ..TASK
        }],
        low: &["work 1"],
        wanted: "rate have 4213 need 4231",
    },
    // an empty reserve, and nothing is owed
    Case {
        heap: Heap { reserve: 0, ..H },
        high: &[Task {
            cost: 2,
            period: 10,
            deadline: 10,
            script: "work 1",
            ..TASK
        }],
        low: &[],
        wanted: "work 4179 attempt 0 busy 2 debt 0 responses 2",
    },
    // a reserve that is owed to the last event: 17 * 5
    Case {
        heap: Heap {
            reserve: 5,
            rate: 17,
            ..H
        },
        high: &[],
        low: &["new r1 1 1"],
        wanted: "work 4179 attempt 34 busy 95 debt 85 responses",
    },
    // and one word less
    Case {
        heap: Heap {
            reserve: 4,
            rate: 17,
            ..H
        },
        high: &[],
        low: &["new r1 1 1"],
        wanted: "reserve have 68 need 85",
    },
];

#[test]
fn attempts(rt: HostRuntime) -> Result<(), Fail> {
    admit_all(&rt, rt.alloc(), ATTEMPTS)
}

#[test]
fn rates_and_reserves(rt: HostRuntime) -> Result<(), Fail> {
    admit_all(&rt, rt.alloc(), ROOM)
}
