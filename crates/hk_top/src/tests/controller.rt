//! A controller of three loops and two low tasks.
use super::{CHECK, RUN, TRACE, add, expect, expect_status, run};
use hk_io::Status;
use std::alloc::Global;
use std::process::Abort;

/// Loops of 5, 10 and 20 ms at 100 ticks a millisecond, for 400 ms.
pub(super) const CONTROLLER: &str = r#"version = 1
ticks = 40000
heap = { live = 256, alloc = 1024, reserve = 128, rate = 11, board = [5, 4] }

[[high]]
name = "fast"
cost = 90
period = 500
deadline = 500
words = 3
first = 0
every = 500
script = """
job v0
get v1 r0 0
add v1 v0
put r0 0 v1
new r1 0 2
put r1 0 v0
put r1 1 v1
store r0 0 r1
clear r1
work 60
out v1
"""

[[high]]
name = "mid"
cost = 139
period = 1000
deadline = 1000
words = 0
first = 0
every = 1000
script = """
load r1 r0 0
if null r1
else
get v0 r1 1
end
put r0 1 v0
work 120
clear r1
out v0
"""

[[high]]
name = "slow"
cost = 222
period = 2000
deadline = 2000
words = 2
first = 0
every = 2000
script = """
get v0 r0 1
new r1 0 1
put r1 0 v0
store r0 1 r1
clear r1
work 200
out v0
"""

[[low]]
name = "log"
first = 0
every = 1500
script = """
job v0
new r1 1 2
put r1 0 v0
load r2 r0 2
if null r2
else
store r2 0 r3
end
store r1 0 r2
store r0 2 r1
clear r1
clear r2
"""

[[low]]
name = "stats"
first = 100
every = 2500
script = """
load r1 r0 2
if null r1
else
get v0 r1 0
end
put r0 2 v0
clear r1
out v0
"""
"#;

const ANALYSIS: &str = "heap work 9645 attempt 47 busy 918 debt 367
high fast response 90 deadline 500
high mid response 229 deadline 1000
high slow response 451 deadline 2000
low log
low stats
";

/// What the high tasks come to: each ends at its response time, to the tick.
const ENDS: &[&str] = &[
    "done fast jobs 80 latest 90",
    "done mid jobs 40 latest 229",
    "done slow jobs 20 latest 451",
];

#[test]
fn analyses_the_controller(rt: HostRuntime) {
    expect(&rt, rt.alloc(), CHECK, CONTROLLER, Status::Done, ANALYSIS);
}

/// What is written of the controller's run.
fn written(rt: &impl Abort, alloc: Global, words: &[&str]) -> String {
    let ended = run(rt, alloc, words, CONTROLLER, (&[], &[]), 1_048_576);
    expect_status(rt, &ended, Status::Done);
    let text = str::from_utf8(ended.sink.bytes()).expect(rt, "no text");
    String::from_str(alloc, text).expect(rt, "no memory")
}

/// How often a line stands in a text.
fn count_lines(text: &str, wanted: &str) -> u64 {
    let mut count: u64 = 0;
    for line in text.lines() {
        if line == wanted {
            count = count.saturating_add(1);
        }
    }
    count
}

#[test]
fn runs_the_controller(rt: HostRuntime) {
    let report = written(&rt, rt.alloc(), RUN);
    assert!(rt; report.as_str().starts_with(ANALYSIS));
    for line in ENDS {
        assert_eq!(rt; count_lines(report.as_str(), line), 1);
    }
}

/// Whether a line is one that a trace adds.
fn is_of_trace(line: &str) -> bool {
    line.starts_with("t ") || line.starts_with("ended ")
}

/// A text without the lines that a trace adds.
fn untraced(rt: &impl Abort, alloc: Global, text: &str) -> String {
    let mut rest = String::new(alloc);
    for line in text.lines() {
        if !is_of_trace(line) {
            add(rt, &mut rest, line);
            add(rt, &mut rest, "\n");
        }
    }
    rest
}

#[test]
fn traces_the_controller(rt: HostRuntime) {
    let alloc = rt.alloc();
    let trace = written(&rt, alloc, TRACE);
    let report = written(&rt, alloc, RUN);
    let rest = untraced(&rt, alloc, trace.as_str());
    assert!(rt; rest.as_str() == report.as_str());
    assert_eq!(rt; count_lines(trace.as_str(), "t 89 high fast"), 1);
    assert_eq!(rt; count_lines(trace.as_str(), "ended 89 fast 0 90"), 1);
}
