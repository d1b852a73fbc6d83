//! Response times with room for a section, and the refusals in their order.
use super::{Case, Task, admit_all};
use std::test::Fail;

/// Three tasks, of which the last takes long.
const THREE: &[Task] = &[(2, 10, 10, 0, 2), (2, 20, 20, 0, 2), (6, 40, 40, 0, 6)];

const RESPONSES: &[Case] = &[
    // the last may hold up both others for 3 ticks
    Case {
        high: THREE,
        words: &["a:0:0:2", "c:0:1:4"],
        wanted: "work 4247 attempt 0 busy 10 debt 0 responses 5 7 10",
    },
    // no sections: plain response times
    Case {
        high: THREE,
        words: &[],
        wanted: "work 4247 attempt 0 busy 10 debt 0 responses 2 4 10",
    },
    Case {
        high: &[(1, 4, 4, 0, 1), (2, 6, 6, 0, 2), (3, 12, 12, 0, 3)],
        words: &[],
        wanted: "work 4247 attempt 0 busy 10 debt 0 responses 1 3 10",
    },
    // of two sections the longer one counts, and not both
    Case {
        high: THREE,
        words: &["a:0:0:2", "c:0:0:3", "c:0:3:3"],
        wanted: "work 4247 attempt 0 busy 10 debt 0 responses 4 6 10",
    },
    // a section of one tick holds nobody up
    Case {
        high: THREE,
        words: &["a:0:0:2", "c:0:1:1"],
        wanted: "work 4247 attempt 0 busy 10 debt 0 responses 2 4 10",
    },
    // the ceiling is the second task: the first isn't held up
    Case {
        high: THREE,
        words: &["b:1:0:2", "c:1:0:6"],
        wanted: "work 4247 attempt 0 busy 10 debt 0 responses 2 9 10",
    },
    // the section of an earlier task holds nobody up, and neither does one that is the task's own
    Case {
        high: THREE,
        words: &["a:2:0:2", "b:3:0:2"],
        wanted: "work 4247 attempt 0 busy 10 debt 0 responses 2 4 10",
    },
    // the greatest resource, and eight digits
    Case {
        high: THREE,
        words: &["a:63:00000000:00000002", "b:00000063:0:2"],
        wanted: "work 4247 attempt 0 busy 10 debt 0 responses 3 4 10",
    },
    // a job that is held up lets one more job of the first task in: 2 + 7, and 2 * 2 in 13 ticks
    Case {
        high: &[(2, 9, 9, 0, 2), (2, 20, 20, 0, 2), (9, 40, 40, 0, 9)],
        words: &["b:0:0:1", "c:0:0:8"],
        wanted: "work 4247 attempt 0 busy 15 debt 0 responses 2 13 15",
    },
];

const REFUSALS: &[Case] = &[
    // a section that ends after the cost
    Case {
        high: THREE,
        words: &["a:0:0:2", "c:0:1:6"],
        wanted: "section 1",
    },
    // no high task of this name
    Case {
        high: THREE,
        words: &["d:0:0:1", "c:0:1:6"],
        wanted: "section 0",
    },
    // resources above 63
    Case {
        high: THREE,
        words: &["a:0:0:1", "a:64:1:1"],
        wanted: "section 1",
    },
    Case {
        high: THREE,
        words: &["a:99999999:0:1"],
        wanted: "section 0",
    },
    // no tick
    Case {
        high: THREE,
        words: &["a:0:0:0"],
        wanted: "section 0",
    },
    // the greatest numbers
    Case {
        high: THREE,
        words: &["c:0:99999999:99999999"],
        wanted: "section 0",
    },
    // one section into another, with a section of another task between
    Case {
        high: THREE,
        words: &["c:0:0:3", "a:0:0:1", "c:1:2:2"],
        wanted: "section 2",
    },
    // and in the wrong order
    Case {
        high: THREE,
        words: &["c:1:3:3", "c:0:0:3"],
        wanted: "section 1",
    },
    // sections go before what the tasks declare
    Case {
        high: &[(1, 10, 10, 0, 2)],
        words: &["a:0:0:2"],
        wanted: "section 0",
    },
    Case {
        high: &[(1, 10, 10, 0, 2)],
        words: &["a:0:0:1"],
        wanted: "cost a",
    },
    // the heap goes before jitter
    Case {
        high: &[(11, 10, 10, 1, 11)],
        words: &[],
        wanted: "busy",
    },
    // and jitter before response times
    Case {
        high: &[(2, 10, 4, 0, 2), (2, 20, 20, 1, 2), (6, 40, 40, 2, 6)],
        words: &["a:0:0:2", "c:0:1:4"],
        wanted: "jitter b",
    },
    // one tick more than the deadline, for the first task and for the second
    Case {
        high: &[(2, 10, 4, 0, 2), (2, 20, 6, 0, 2), (6, 40, 40, 0, 6)],
        words: &["a:0:0:2", "c:0:1:4"],
        wanted: "response a",
    },
    Case {
        high: &[(2, 10, 5, 0, 2), (2, 20, 6, 0, 2), (6, 40, 40, 0, 6)],
        words: &["a:0:0:2", "c:0:1:4"],
        wanted: "response b",
    },
    Case {
        high: &[(2, 10, 5, 0, 2), (2, 20, 7, 0, 2), (6, 40, 10, 0, 6)],
        words: &["a:0:0:2", "c:0:1:4"],
        wanted: "work 4247 attempt 0 busy 10 debt 0 responses 5 7 10",
    },
    // a cost above the deadline
    Case {
        high: &[(5, 10, 4, 0, 5)],
        words: &[],
        wanted: "response a",
    },
];

#[test]
fn responses(rt: HostRuntime) -> Result<(), Fail> {
    admit_all(&rt, rt.alloc(), RESPONSES)?;
    Ok(())
}

#[test]
fn refusals(rt: HostRuntime) -> Result<(), Fail> {
    admit_all(&rt, rt.alloc(), REFUSALS)?;
    Ok(())
}
