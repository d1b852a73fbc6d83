//! Release jitter, and sheets of version 2.
use super::{CHECK, Case, RUN, SMALLEST, THREE, expect_cases};
use hk_io::Status;

/// A task of version 2 with an object of the most fields in its last register.
const WIDE: &str = r#"version = 2
ticks = 100
heap = { live = 512, alloc = 512, reserve = 300, rate = 40, board = [2, 2], registers = 32 }

[[high]]
name = "a"
period = 20000
deadline = 20000
cost = 7
words = 255
arrivals = [0]
script = "new r31 0 254"
"#;

/// The first task of the sheet of three waits up to 3 ticks after an arrival.
const LATE: (&str, &str) = ("cost = 1\nwords = 0\n", "cost = 1\nwords = 0\njitter = 3\n");

/// So it does, and its jobs are ready at 0, 7 and 10. The ticks go to a, b, b, c, c, c, b, a, b, nobody, a, nobody.
const LATE_BY_LAG: (&str, &str) = (
    "cost = 1\nwords = 0\n",
    "cost = 1\nwords = 0\njitter = 3\nlag = 3\n",
);

const READY_MOMENTS: &[Case] = &[
    Case {
        words: CHECK,
        sheet: THREE,
        changes: &[LATE],
        status: Status::Done,
        text: "heap work 4247 attempt 0 busy 11 debt 0
high a response 4 deadline 4
high b response 4 deadline 6
high c response 11 deadline 12
",
    },
    Case {
        words: RUN,
        sheet: THREE,
        changes: &[LATE_BY_LAG],
        status: Status::Done,
        text: "heap work 4247 attempt 0 busy 11 debt 0
high a response 4 deadline 4
high b response 4 deadline 6
high c response 11 deadline 12
done a jobs 3 latest 4
done b jobs 2 latest 3
done c jobs 1 latest 6
cycles 0 collector 0 idle 2
end 12
",
    },
    Case {
        words: CHECK,
        sheet: THREE,
        changes: &[LATE, ("deadline = 12", "deadline = 10")],
        status: Status::NotAdmitted,
        text: "refused response c\n",
    },
    Case {
        words: RUN,
        sheet: THREE,
        changes: &[LATE_BY_LAG, ("deadline = 12", "deadline = 10")],
        status: Status::NotAdmitted,
        text: "refused response c\n",
    },
];

#[test]
fn ready_moments(rt: HostRuntime) {
    expect_cases(&rt, rt.alloc(), READY_MOMENTS);
}

/// The smallest sheet with two registers: frames have fewer registers, so that a cycle is shorter.
const FEW_REGISTERS: &[Case] = &[Case {
    words: RUN,
    sheet: SMALLEST,
    changes: &[
        ("version = 1", "version = 2"),
        ("board = [2, 2]", "board = [2, 2]\nregisters = 2"),
    ],
    status: Status::Done,
    text: "heap work 4155 attempt 0 busy 2 debt 0
high a response 2 deadline 10
out 1 a 0
done a jobs 1 latest 2
cycles 0 collector 0 idle 8
end 10
",
}];

#[test]
fn other_registers(rt: HostRuntime) {
    expect_cases(&rt, rt.alloc(), FEW_REGISTERS);
}

/// Sheets with wide objects and other numbers of registers.
const WIDE_SHEETS: &[Case] = &[
    // The object's 255 words make the collector owe 10,200 events, of which the run has 93.
    Case {
        words: RUN,
        sheet: WIDE,
        changes: &[],
        status: Status::Done,
        text: "heap work 8325 attempt 1272 busy 11479 debt 11472
high a response 7 deadline 20000
done a jobs 1 latest 7
cycles 1 collector 93 idle 0
end 100
",
    },
    Case {
        words: RUN,
        sheet: WIDE,
        changes: &[("reserve = 300", "reserve = 286")],
        status: Status::NotAdmitted,
        text: "refused reserve have 11440 need 11472\n",
    },
    Case {
        words: RUN,
        sheet: SMALLEST,
        changes: &[("work 1\nout v0", "new r31 0 254")],
        status: Status::Sheet,
        text: "sheet script a register 1\n",
    },
    Case {
        words: RUN,
        sheet: SMALLEST,
        changes: &[("work 1\nout v0", "new r1 0 254")],
        status: Status::Sheet,
        text: "sheet script a shape 1\n",
    },
    Case {
        words: RUN,
        sheet: SMALLEST,
        changes: &[("board = [2, 2]", "board = [2, 2]\nregisters = 8")],
        status: Status::Sheet,
        text: "sheet unknown heap.registers\n",
    },
    Case {
        words: RUN,
        sheet: WIDE,
        changes: &[(", registers = 32", "")],
        status: Status::Sheet,
        text: "sheet missing heap.registers\n",
    },
];

#[test]
fn wide_sheets(rt: HostRuntime) {
    expect_cases(&rt, rt.alloc(), WIDE_SHEETS);
}
