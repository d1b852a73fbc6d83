//! Orders that are worked out by hand.
use super::{Timing, expect_answer};

/// Tasks, and the order of their indices, or the indices of those that are stuck.
struct Case {
    tasks: &'static [Timing],
    wanted: &'static str,
}

/// A task with this cost, which comes every 100 ticks and is ready as it arrives.
const TASK: Timing = Timing {
    cost: 1,
    period: 100,
    deadline: 100,
    jitter: 0,
};

const CASES: &[Case] = &[
    Case {
        tasks: &[],
        wanted: "order",
    },
    // a cost that is the deadline, and one above it
    Case {
        tasks: &[Timing {
            cost: 4,
            period: 10,
            deadline: 4,
            ..TASK
        }],
        wanted: "order 0",
    },
    Case {
        tasks: &[Timing {
            cost: 5,
            period: 10,
            deadline: 4,
            ..TASK
        }],
        wanted: "stuck 0",
    },
    // of two that can be the last it is the one with the greater index, whatever the deadlines
    Case {
        tasks: &[TASK, TASK],
        wanted: "order 0 1",
    },
    Case {
        tasks: &[
            TASK,
            Timing {
                deadline: 50,
                ..TASK
            },
        ],
        wanted: "order 0 1",
    },
    // the last has 1 + 3 + 2 ticks, 7, or 10: only the first task can be the last, with 12. Then the third, with 3
    Case {
        tasks: &[
            Timing {
                cost: 3,
                period: 12,
                deadline: 12,
                ..TASK
            },
            Timing {
                cost: 2,
                period: 6,
                deadline: 6,
                ..TASK
            },
            Timing {
                cost: 1,
                period: 4,
                deadline: 4,
                ..TASK
            },
        ],
        wanted: "order 1 2 0",
    },
    // 10 is above the deadline 9
    Case {
        tasks: &[
            Timing {
                cost: 1,
                period: 4,
                deadline: 4,
                ..TASK
            },
            Timing {
                cost: 2,
                period: 6,
                deadline: 6,
                ..TASK
            },
            Timing {
                cost: 3,
                period: 12,
                deadline: 9,
                ..TASK
            },
        ],
        wanted: "stuck 0 1 2",
    },
    // the greater deadline goes first: behind the other it has 3 ticks and 3 of jitter. The lesser has 1 + 2 behind it
    Case {
        tasks: &[
            Timing {
                cost: 1,
                period: 10,
                deadline: 4,
                ..TASK
            },
            Timing {
                cost: 2,
                period: 10,
                deadline: 5,
                jitter: 3,
            },
        ],
        wanted: "order 1 0",
    },
    // and with a tick of jitter more it is late before all others
    Case {
        tasks: &[
            Timing {
                cost: 1,
                period: 10,
                deadline: 4,
                ..TASK
            },
            Timing {
                cost: 2,
                period: 10,
                deadline: 5,
                jitter: 4,
            },
        ],
        wanted: "stuck 1",
    },
    // jitter of a task before: 1 + 2 * 2 ticks, since 3 + 8 ticks hold two arrivals, is above 4
    Case {
        tasks: &[
            Timing {
                cost: 1,
                period: 10,
                deadline: 4,
                ..TASK
            },
            Timing {
                cost: 2,
                period: 10,
                deadline: 10,
                jitter: 8,
            },
        ],
        wanted: "stuck 0 1",
    },
    // two that are late behind each other, and one that is in time behind both
    Case {
        tasks: &[
            Timing {
                cost: 2,
                period: 10,
                deadline: 3,
                ..TASK
            },
            Timing {
                cost: 2,
                period: 10,
                deadline: 3,
                ..TASK
            },
            TASK,
        ],
        wanted: "stuck 0 1",
    },
    Case {
        tasks: &[
            TASK,
            Timing {
                cost: 2,
                period: 10,
                deadline: 3,
                ..TASK
            },
            Timing {
                cost: 2,
                period: 10,
                deadline: 3,
                ..TASK
            },
        ],
        wanted: "stuck 1 2",
    },
    // as many as there can be
    Case {
        tasks: &[Timing {
            period: 31,
            deadline: 31,
            ..TASK
        }; 31],
        wanted: "order 0 1 2 3 4 5 6 7 8 9 10 11 12 13 14 15 16 17 18 19 20 21 22 23 24 25 26 27 28 29 30",
    },
    Case {
        tasks: &[Timing {
            period: 31,
            deadline: 30,
            ..TASK
        }; 31],
        wanted: "stuck 0 1 2 3 4 5 6 7 8 9 10 11 12 13 14 15 16 17 18 19 20 21 22 23 24 25 26 27 28 29 30",
    },
];

#[test]
fn worked_orders(rt: HostRuntime) {
    for case in CASES {
        expect_answer(&rt, rt.alloc(), case.tasks, case.wanted);
    }
}
