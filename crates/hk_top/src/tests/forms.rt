//! The forms `check`, `run` and `run --trace` of the same sheets.
use super::{
    ANALYSIS, CHECK, Case, REPORT, REPORT_OF_THREE, RUN, SMALLEST, THREE, TRACE, add, changed,
    expect, expect_cases,
};
use hk_io::Status;
use std::alloc::Global;
use std::process::Abort;

/// What the sheet of the smallest run is changed into for 20 ticks and a low task.
const LONGER_WITH_LOW: &[(&str, &str)] = &[
    ("ticks = 10", "ticks = 20"),
    (
        "out v0\n\"\"\"\n",
        "out v0\n\"\"\"\n\n[[low]]\nname = \"b\"\nfirst = 0\nevery = 10\nscript = \"work 1\"\n",
    ),
];

/// The same with a rate that is one too small.
const SLOWER_WITH_LOW: &[(&str, &str)] = &[
    ("rate = 11", "rate = 10"),
    (
        "out v0\n\"\"\"\n",
        "out v0\n\"\"\"\n\n[[low]]\nname = \"b\"\nfirst = 0\nevery = 10\nscript = \"work 1\"\n",
    ),
];

/// The last task's deadline is one tick too short.
const SHORTER: &[(&str, &str)] = &[("deadline = 12", "deadline = 9")];

/// A sheet that is cut within its script.
const CUT: &[(&str, &str)] = &[("out v0\n\"\"\"\n", "")];

/// The smallest sheet: with a trace, who got each tick, what it put out, and which job ended with it.
const OF_SMALLEST: &[Case] = &[
    Case {
        words: CHECK,
        sheet: SMALLEST,
        changes: &[],
        status: Status::Done,
        text: ANALYSIS,
    },
    Case {
        words: RUN,
        sheet: SMALLEST,
        changes: &[],
        status: Status::Done,
        text: REPORT,
    },
    Case {
        words: TRACE,
        sheet: SMALLEST,
        changes: &[],
        status: Status::Done,
        text: "heap work 4179 attempt 0 busy 2 debt 0
high a response 2 deadline 10
t 0 high a
t 1 high a
out 1 a 0
ended 1 a 0 2
t 2 idle
t 3 idle
t 4 idle
t 5 idle
t 6 idle
t 7 idle
t 8 idle
t 9 idle
done a jobs 1 latest 2
cycles 0 collector 0 idle 8
end 10
",
    },
];

#[test]
fn smallest_sheet(rt: HostRuntime) {
    expect_cases(&rt, rt.alloc(), OF_SMALLEST);
}

/// Three tasks, whose response times are 1, 3 and 10; with a deadline of 9 the last one is refused.
const OF_THREE: &[Case] = &[
    Case {
        words: CHECK,
        sheet: THREE,
        changes: &[],
        status: Status::Done,
        text: "heap work 4247 attempt 0 busy 10 debt 0
high a response 1 deadline 4
high b response 3 deadline 6
high c response 10 deadline 12
",
    },
    Case {
        words: RUN,
        sheet: THREE,
        changes: &[],
        status: Status::Done,
        text: REPORT_OF_THREE,
    },
    Case {
        words: TRACE,
        sheet: THREE,
        changes: &[],
        status: Status::Done,
        text: "heap work 4247 attempt 0 busy 10 debt 0
high a response 1 deadline 4
high b response 3 deadline 6
high c response 10 deadline 12
t 0 high a
ended 0 a 0 1
t 1 high b
t 2 high b
ended 2 b 0 3
t 3 high c
t 4 high a
ended 4 a 1 1
t 5 high c
t 6 high b
t 7 high b
ended 7 b 1 2
t 8 high a
ended 8 a 2 1
t 9 high c
ended 9 c 0 10
t 10 idle
t 11 idle
done a jobs 3 latest 1
done b jobs 2 latest 3
done c jobs 1 latest 10
cycles 0 collector 0 idle 2
end 12
",
    },
    Case {
        words: CHECK,
        sheet: THREE,
        changes: SHORTER,
        status: Status::NotAdmitted,
        text: "refused response c\n",
    },
    Case {
        words: RUN,
        sheet: THREE,
        changes: SHORTER,
        status: Status::NotAdmitted,
        text: "refused response c\n",
    },
    Case {
        words: TRACE,
        sheet: THREE,
        changes: SHORTER,
        status: Status::NotAdmitted,
        text: "refused response c\n",
    },
];

#[test]
fn three_tasks(rt: HostRuntime) {
    expect_cases(&rt, rt.alloc(), OF_THREE);
}

/// A high and a low task, where the rate is just enough, and one less.
const OF_A_LOW_TASK: &[Case] = &[
    Case {
        words: CHECK,
        sheet: SMALLEST,
        changes: LONGER_WITH_LOW,
        status: Status::Done,
        text: "heap work 4213 attempt 0 busy 14 debt 0\nhigh a response 2 deadline 10\nlow b\n",
    },
    Case {
        words: RUN,
        sheet: SMALLEST,
        changes: LONGER_WITH_LOW,
        status: Status::Done,
        text: "heap work 4213 attempt 0 busy 14 debt 0
high a response 2 deadline 10
low b
out 1 a 0
out 11 a 0
done a jobs 2 latest 2
done b jobs 2 latest 3
cycles 0 collector 0 idle 14
end 20
",
    },
    Case {
        words: TRACE,
        sheet: SMALLEST,
        changes: LONGER_WITH_LOW,
        status: Status::Done,
        text: "heap work 4213 attempt 0 busy 14 debt 0
high a response 2 deadline 10
low b
t 0 high a
t 1 high a
out 1 a 0
ended 1 a 0 2
t 2 low b
ended 2 b 0 3
t 3 idle
t 4 idle
t 5 idle
t 6 idle
t 7 idle
t 8 idle
t 9 idle
t 10 high a
t 11 high a
out 11 a 0
ended 11 a 1 2
t 12 low b
ended 12 b 1 3
t 13 idle
t 14 idle
t 15 idle
t 16 idle
t 17 idle
t 18 idle
t 19 idle
done a jobs 2 latest 2
done b jobs 2 latest 3
cycles 0 collector 0 idle 14
end 20
",
    },
    Case {
        words: CHECK,
        sheet: SMALLEST,
        changes: SLOWER_WITH_LOW,
        status: Status::NotAdmitted,
        text: "refused rate have 3830 need 4213\n",
    },
    Case {
        words: RUN,
        sheet: SMALLEST,
        changes: SLOWER_WITH_LOW,
        status: Status::NotAdmitted,
        text: "refused rate have 3830 need 4213\n",
    },
];

#[test]
fn high_and_low(rt: HostRuntime) {
    expect_cases(&rt, rt.alloc(), OF_A_LOW_TASK);
}

/// Inputs that are no sheet.
const NO_SHEETS: &[Case] = &[
    Case {
        words: CHECK,
        sheet: SMALLEST,
        changes: CUT,
        status: Status::Sheet,
        text: "sheet text\n",
    },
    Case {
        words: RUN,
        sheet: SMALLEST,
        changes: CUT,
        status: Status::Sheet,
        text: "sheet text\n",
    },
    Case {
        words: TRACE,
        sheet: SMALLEST,
        changes: CUT,
        status: Status::Sheet,
        text: "sheet text\n",
    },
    Case {
        words: CHECK,
        sheet: "",
        changes: &[],
        status: Status::Sheet,
        text: "sheet missing version\n",
    },
    Case {
        words: RUN,
        sheet: "",
        changes: &[],
        status: Status::Sheet,
        text: "sheet missing version\n",
    },
    Case {
        words: TRACE,
        sheet: "",
        changes: &[],
        status: Status::Sheet,
        text: "sheet missing version\n",
    },
];

#[test]
fn no_sheets(rt: HostRuntime) {
    expect_cases(&rt, rt.alloc(), NO_SHEETS);
}

/// Ticks that went to the same, the first and the one behind the last, and the lines behind them.
#[derive(Clone, Copy)]
struct Span {
    first: u64,
    end: u64,
    who: &'static str,
    behind: &'static str,
}

/// Adds the line of a tick.
fn add_tick(rt: &impl Abort, alloc: Global, text: &mut String, tick: u64, who: &str) {
    let line = format!(in alloc; "t {tick} {who}\n").expect(rt, "no memory");
    add(rt, text, line.as_str());
}

/// The lines of a trace between the first lines and the last.
fn traced(rt: &impl Abort, alloc: Global, head: &str, spans: &[Span], tail: &str) -> String {
    let mut text = String::from_str(alloc, head).expect(rt, "no memory");
    for span in spans {
        for tick in span.first..span.end {
            add_tick(rt, alloc, &mut text, tick, span.who);
        }
        add(rt, &mut text, span.behind);
    }
    add(rt, &mut text, tail);
    text
}

/// Two high tasks, of which the second puts a number into the board and reads it while the collector copies it.
const SPOILS: &str = r#"version = 1
ticks = 100
heap = { live = 62, alloc = 512, reserve = 129, rate = 11, board = [2, 2] }

[[high]]
name = "a"
cost = 7
period = 1000
deadline = 1000
words = 5
arrivals = [0]
script = "new r1 1 3"

[[high]]
name = "p"
cost = 8
period = 1000
deadline = 1000
words = 0
arrivals = [38]
script = """
set v0 7
put r0 0 v0
get v1 r0 0
out v1
"""
"#;

const SPOILS_HEAD: &str = "heap work 4213 attempt 34 busy 138 debt 123
high a response 7 deadline 1000
high p response 15 deadline 1000
";

const SPOILS_TAIL: &str = "done a jobs 1 latest 7
done p jobs 1 latest 8
cycles 1 collector 65 idle 20
end 100
";

/// The new object's five words make the collector owe 55 events. It has begun to copy the board when the second job comes, and
/// finds that out with the tenth event of that attempt, at tick 54; the ten are owed again.
const SPOILS_SPANS: &[Span] = &[
    Span {
        first: 0,
        end: 7,
        who: "high a",
        behind: "ended 6 a 0 7\n",
    },
    Span {
        first: 7,
        end: 8,
        who: "gc flip",
        behind: "",
    },
    Span {
        first: 8,
        end: 38,
        who: "gc step",
        behind: "",
    },
    Span {
        first: 38,
        end: 46,
        who: "high p",
        behind: "out 45 p 7\nended 45 p 0 8\n",
    },
    Span {
        first: 46,
        end: 54,
        who: "gc step",
        behind: "",
    },
    Span {
        first: 54,
        end: 55,
        who: "gc lost 10",
        behind: "",
    },
    Span {
        first: 55,
        end: 80,
        who: "gc step",
        behind: "",
    },
    Span {
        first: 80,
        end: 100,
        who: "idle",
        behind: "",
    },
];

#[test]
fn trace_of_a_spoiled_copy(rt: HostRuntime) {
    let alloc = rt.alloc();
    let trace = traced(&rt, alloc, SPOILS_HEAD, SPOILS_SPANS, SPOILS_TAIL);
    expect(&rt, alloc, TRACE, SPOILS, Status::Done, trace.as_str());
    expect(&rt, alloc, CHECK, SPOILS, Status::Done, SPOILS_HEAD);
}

/// The first task alone, in a heap that has room for one word less than are live.
const OVER: &[(&str, &str)] = &[
    ("live = 62", "live = 8"),
    (
        "\n[[high]]\nname = \"p\"\ncost = 8\nperiod = 1000\ndeadline = 1000\nwords = 0\narrivals = [38]\nscript = \"\"\"\nset v0 7\nput r0 0 v0\nget v1 r0 0\nout v1\n\"\"\"\n",
        "",
    ),
];

const OVER_SPANS: &[Span] = &[
    Span {
        first: 0,
        end: 7,
        who: "high a",
        behind: "ended 6 a 0 7\n",
    },
    Span {
        first: 7,
        end: 8,
        who: "gc flip",
        behind: "",
    },
    Span {
        first: 8,
        end: 23,
        who: "gc step",
        behind: "",
    },
    Span {
        first: 23,
        end: 24,
        who: "gc live",
        behind: "",
    },
];

#[test]
fn trace_of_a_run_that_stands_still(rt: HostRuntime) {
    let alloc = rt.alloc();
    let head = "heap work 3693 attempt 34 busy 96 debt 89\nhigh a response 7 deadline 1000\n";
    let trace = traced(&rt, alloc, head, OVER_SPANS, "live 23 10 above 8\n");
    let input = changed(&rt, alloc, SPOILS, OVER);
    expect_over(&rt, alloc, input.as_str(), head, trace.as_str());
}

/// Compares the analysis and the trace of a run that stands still.
fn expect_over(rt: &impl Abort, alloc: Global, input: &str, head: &str, trace: &str) {
    expect(rt, alloc, CHECK, input, Status::Done, head);
    expect(rt, alloc, TRACE, input, Status::Live, trace);
}
