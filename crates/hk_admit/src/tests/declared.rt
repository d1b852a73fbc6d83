//! What the high tasks declare.
use super::{Case, H, Heap, TASK, Task, admit_all};
use std::test::Fail;

/// Scripts that make 65536 * 256 words, and more.
const LARGE: &str =
    "repeat 65535;new r1 31 31;new r1 31 31;new r1 31 31;new r1 31 31;new r1 1 2;end;new r1 31 31;new r1 31 31;new r1 31 31;new r1 31 31;new r1 1 2";

const LARGEST: &str =
    "repeat 65535;new r1 31 31;new r1 31 31;new r1 31 31;new r1 31 31;new r1 31 31;end";

/// Ticks and words.
const TICKS_AND_WORDS: &[Case] = &[
    // a script too long to be told
    Case {
        heap: H,
        high: &[Task {
            cost: 2,
            period: 10,
            deadline: 10,
            script: "repeat 65535;work 65535;end",
            ..TASK
        }],
        low: &[],
        wanted: "cost a need none declared 2",
    },
    // the tests of a repeat count
    Case {
        heap: H,
        high: &[Task {
            cost: 10,
            period: 20,
            deadline: 20,
            script: "repeat 3;work 2;end",
            ..TASK
        }],
        low: &[],
        wanted: "work 4179 attempt 0 busy 10 debt 0 responses 10",
    },
    // one tick less is declared
    Case {
        heap: H,
        high: &[Task {
            cost: 9,
            period: 20,
            deadline: 20,
            script: "repeat 3;work 2;end",
            ..TASK
        }],
        low: &[],
        wanted: "cost a need 10 declared 9",
    },
    // the greatest cost that is told: 65535 * 256 + 1 + 255
    Case {
        heap: H,
        high: &[Task {
            cost: 16777216,
            period: 16777216,
            deadline: 16777216,
            script: "repeat 65535;work 255;end;work 255",
            ..TASK
        }],
        low: &[],
        wanted: "work 4179 attempt 0 busy 16777216 debt 0 responses 16777216",
    },
    // and one tick more
    Case {
        heap: H,
        high: &[Task {
            cost: 16777216,
            period: 16777216,
            deadline: 16777216,
            script: "repeat 65535;work 255;end;work 256",
            ..TASK
        }],
        low: &[],
        wanted: "cost a need none declared 16777216",
    },
    // words as the script takes them
    Case {
        heap: H,
        high: &[Task {
            cost: 7,
            period: 1000,
            deadline: 1000,
            words: 3,
            script: "new r1 1 1",
            ..TASK
        }],
        low: &[],
        wanted: "work 4179 attempt 34 busy 74 debt 67 responses 7",
    },
    // one word less is declared
    Case {
        heap: H,
        high: &[Task {
            cost: 7,
            period: 1000,
            deadline: 1000,
            words: 2,
            script: "new r1 1 1",
            ..TASK
        }],
        low: &[],
        wanted: "words a need 3 declared 2",
    },
    // more words than are told: 65535 * 315
    Case {
        heap: H,
        high: &[Task {
            cost: 2359261,
            period: 16777216,
            deadline: 16777216,
            words: 16777216,
            script: LARGEST,
            ..TASK
        }],
        low: &[],
        wanted: "words a need none declared 16777216",
    },
    // the most words that are told, 65536 * 256: so many are owed that no busy period is short enough
    Case {
        heap: H,
        high: &[Task {
            cost: 2359296,
            period: 16777216,
            deadline: 16777216,
            words: 16777216,
            script: LARGE,
            ..TASK
        }],
        low: &[],
        wanted: "busy",
    },
    // and one word less is declared
    Case {
        heap: H,
        high: &[Task {
            cost: 2359296,
            period: 16777216,
            deadline: 16777216,
            words: 16777215,
            script: LARGE,
            ..TASK
        }],
        low: &[],
        wanted: "words a need 16777216 declared 16777215",
    },
];

#[test]
fn ticks_and_words(rt: HostRuntime) -> Result<(), Fail> {
    admit_all(&rt, rt.alloc(), TICKS_AND_WORDS)
}
