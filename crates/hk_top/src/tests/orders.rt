//! Several tasks, lists of arrivals, and the order of refusals.
use super::{Case, RUN, SMALLEST, THREE, add, edited, expect_cases, expect_run};
use hk_io::Status;
use std::alloc::Global;
use std::process::Abort;

/// Three tasks. In the first 12 ticks a has 0, 4 and 8, b has 1, 2, 6 and 7, and c has 3, 5 and 9.
const TASKS: &[Case] = &[
    Case {
        words: RUN,
        sheet: THREE,
        changes: &[("\"work 3\"", "\"out v0\\njob v0\\nout v0\"")],
        status: Status::Done,
        text: "heap work 4247 attempt 0 busy 10 debt 0
high a response 1 deadline 4
high b response 3 deadline 6
high c response 10 deadline 12
out 3 c 0
out 9 c 0
done a jobs 3 latest 1
done b jobs 2 latest 3
done c jobs 1 latest 10
cycles 0 collector 0 idle 2
end 12
",
    },
    Case {
        words: RUN,
        sheet: THREE,
        changes: &[("name = \"c\"", "name = \"b\"")],
        status: Status::Sheet,
        text: "sheet name 2\n",
    },
    // The second job of a waits for nobody, and b is put off by it.
    Case {
        words: RUN,
        sheet: THREE,
        changes: &[("first = 0\nevery = 4", "arrivals = [1, 7]")],
        status: Status::Done,
        text: "heap work 4247 attempt 0 busy 10 debt 0
high a response 1 deadline 4
high b response 3 deadline 6
high c response 10 deadline 12
done a jobs 2 latest 1
done b jobs 2 latest 3
done c jobs 1 latest 6
cycles 0 collector 0 idle 3
end 12
",
    },
];

#[test]
fn runs_tasks_in_their_order(rt: HostRuntime) {
    expect_cases(&rt, rt.alloc(), TASKS);
}

/// Lists of arrivals.
const ARRIVALS: &[Case] = &[
    Case {
        words: RUN,
        sheet: SMALLEST,
        changes: &[
            ("ticks = 10", "ticks = 20"),
            ("first = 0\nevery = 10", "arrivals = [0, 10]"),
        ],
        status: Status::Done,
        text: "heap work 4179 attempt 0 busy 2 debt 0
high a response 2 deadline 10
out 1 a 0
out 11 a 0
done a jobs 2 latest 2
cycles 0 collector 0 idle 16
end 20
",
    },
    Case {
        words: RUN,
        sheet: SMALLEST,
        changes: &[
            ("ticks = 10", "ticks = 20"),
            ("first = 0\nevery = 10", "arrivals = [0, 9]"),
        ],
        status: Status::Sheet,
        text: "sheet arrivals a 1 0 9\n",
    },
    // No task at all.
    Case {
        words: RUN,
        sheet: "version = 1\nticks = 10\nheap = { live = 62, alloc = 512, reserve = 129, rate = 11, board = [2, 2] }\n",
        changes: &[],
        status: Status::Sheet,
        text: "sheet geometry tasks\n",
    },
];

#[test]
fn looks_at_lists_of_arrivals(rt: HostRuntime) {
    expect_cases(&rt, rt.alloc(), ARRIVALS);
}

/// A low task, behind the smallest sheet.
const WITH_LOW: (&str, &str) = (
    "out v0\n\"\"\"\n",
    "out v0\n\"\"\"\n[[low]]\nname = \"b\"\nfirst = 0\nevery = 10\nscript = \"work 1\"\n",
);

/// A job that makes an object of 3 words.
const MAKES: (&str, &str) = (
    "period = 10\ndeadline = 10\ncost = 2\nwords = 0\nfirst = 0\nevery = 10\nscript = \"\"\"\nwork 1\nout v0",
    "period = 100\ndeadline = 100\ncost = 8\nwords = 3\nfirst = 0\nevery = 100\nscript = \"\"\"\nwork 1\nnew r1 1 1",
);

/// Sheets that are admitted, or not, by what the collector has to do.
const WORK: &[Case] = &[
    // A low task counts in the collector's work.
    Case {
        words: RUN,
        sheet: SMALLEST,
        changes: &[WITH_LOW],
        status: Status::Done,
        text: "heap work 4213 attempt 0 busy 14 debt 0
high a response 2 deadline 10
low b
out 1 a 0
done a jobs 1 latest 2
done b jobs 1 latest 3
cycles 0 collector 0 idle 7
end 10
",
    },
    // An object of 3 words can make the collector owe 11 * 3 events and an attempt of 34.
    Case {
        words: RUN,
        sheet: SMALLEST,
        changes: &[MAKES, ("reserve = 129", "reserve = 6")],
        status: Status::NotAdmitted,
        text: "refused reserve have 66 need 67\n",
    },
    // The job has 8 ticks, and the collector the other two.
    Case {
        words: RUN,
        sheet: SMALLEST,
        changes: &[MAKES, ("reserve = 129", "reserve = 7")],
        status: Status::Done,
        text: "heap work 4179 attempt 34 busy 75 debt 67
high a response 8 deadline 100
done a jobs 1 latest 8
cycles 1 collector 2 idle 0
end 10
",
    },
];

#[test]
fn admits_by_the_work_of_the_collector(rt: HostRuntime) {
    expect_cases(&rt, rt.alloc(), WORK);
}

/// So many statements, in lines of their own.
fn statements(rt: &impl Abort, alloc: Global, count: u64) -> String {
    let mut script = String::new(alloc);
    for _ in 0..count {
        add(rt, &mut script, "set v0 1\n");
    }
    script
}

/// Compares what the smallest sheet calls for with so many statements in its script.
fn expect_statements(rt: &impl Abort, alloc: Global, count: u64, status: Status, text: &str) {
    let script = statements(rt, alloc, count);
    let input = edited(rt, alloc, SMALLEST, "work 1\nout v0", script.as_str());
    expect_run(rt, alloc, input.as_str(), status, text);
}

/// One less than the most statements, the most, and one more.
#[test]
fn counts_statements(rt: HostRuntime) {
    for (count, status, text) in [
        (
            1023,
            Status::NotAdmitted,
            "refused cost a need 1023 declared 2\n",
        ),
        (
            1024,
            Status::NotAdmitted,
            "refused cost a need 1024 declared 2\n",
        ),
        (1025, Status::Sheet, "sheet script a long\n"),
    ] {
        expect_statements(&rt, rt.alloc(), count, status, text);
    }
}
