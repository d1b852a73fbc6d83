//! Sheets of version 2.
use super::{Case, H, Heap, TASK, Task, admit_all};
use std::test::Fail;

/// 512 words for live objects and 512 for new ones with 300 in reserve, a rate of 40, and 32 registers.
const WIDE: Heap = Heap {
    live: 512,
    alloc: 512,
    reserve: 300,
    rate: 40,
    registers: Some(32),
    ..H
};

const VERSIONS: &[Case] = &[
    // two registers: 3 + 10 + 9 * 62 + 7 * 512
    Case {
        heap: Heap {
            registers: Some(2),
            ..H
        },
        high: &[Task {
            cost: 2,
            period: 10,
            deadline: 10,
            script: "work 1;out v0",
            ..TASK
        }],
        low: &[],
        wanted: "work 4155 attempt 0 busy 2 debt 0 responses 2",
    },
    // eight registers are as many as in version 1
    Case {
        heap: Heap {
            registers: Some(8),
            ..H
        },
        high: &[Task {
            cost: 2,
            period: 10,
            deadline: 10,
            script: "work 1;out v0",
            ..TASK
        }],
        low: &[],
        wanted: "work 4179 attempt 0 busy 2 debt 0 responses 2",
    },
    // an object of 255 words: 2 + 5 * 254 = 1272, and 7 + 40 * 255 + 1272
    Case {
        heap: WIDE,
        high: &[Task {
            cost: 7,
            period: 20000,
            deadline: 20000,
            words: 255,
            script: "new r31 0 254",
            ..TASK
        }],
        low: &[],
        wanted: "work 8325 attempt 1272 busy 11479 debt 11472 responses 7",
    },
    // a reserve that is one event short of a word
    Case {
        heap: Heap {
            reserve: 286,
            ..WIDE
        },
        high: &[Task {
            cost: 7,
            period: 20000,
            deadline: 20000,
            words: 255,
            script: "new r31 0 254",
            ..TASK
        }],
        low: &[],
        wanted: "reserve have 11440 need 11472",
    },
    // and one word more: 40 * 287 = 11480
    Case {
        heap: Heap {
            reserve: 287,
            ..WIDE
        },
        high: &[Task {
            cost: 7,
            period: 20000,
            deadline: 20000,
            words: 255,
            script: "new r31 0 254",
            ..TASK
        }],
        low: &[],
        wanted: "work 8325 attempt 1272 busy 11479 debt 11472 responses 7",
    },
    // two registers: a board of 5 words has 22 events, a frame 10
    Case {
        heap: Heap {
            registers: Some(2),
            ..H
        },
        high: &[Task {
            cost: 7,
            words: 2,
            script: "new r1 1 0",
            ..TASK
        }],
        low: &[],
        wanted: "work 4155 attempt 22 busy 51 debt 44 responses 7",
    },
    // a board of 2 words has 7
    Case {
        heap: Heap {
            board: (1, 0),
            registers: Some(2),
            ..H
        },
        high: &[Task {
            cost: 7,
            words: 2,
            script: "new r1 1 0",
            ..TASK
        }],
        low: &[],
        wanted: "work 4155 attempt 10 busy 39 debt 32 responses 7",
    },
    // 32 registers: a frame has 130 events
    Case {
        heap: Heap {
            reserve: 100,
            rate: 12,
            registers: Some(32),
            ..H
        },
        high: &[Task {
            cost: 7,
            words: 2,
            script: "new r1 1 0",
            ..TASK
        }],
        low: &[],
        wanted: "work 4275 attempt 130 busy 161 debt 154 responses 7",
    },
    // a low task's largest object: 12 * (512 - 100 - 255) events are sure
    Case {
        heap: Heap {
            reserve: 100,
            rate: 12,
            registers: Some(32),
            ..H
        },
        high: &[],
        low: &["new r31 254 0"],
        wanted: "rate have 1884 need 4275",
    },
];

#[test]
fn registers_and_fields(rt: HostRuntime) -> Result<(), Fail> {
    admit_all(&rt, rt.alloc(), VERSIONS)
}
