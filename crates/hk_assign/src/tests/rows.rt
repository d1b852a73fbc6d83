//! Sheets whose orders are worked out by hand.
use super::{
    Ended, THREE, add, edited, expect, expect_end, expect_names, expect_part, expect_status, run,
    trial,
};
use hk_io::{Status, Trial};
use hk_top::run_tool;
use std::alloc::Global;
use std::process::Abort;

/// What is written for a sheet whose tasks have an order.
fn written(rt: &impl Abort, alloc: Global, sheet: &str) -> String {
    let ended = run(rt, alloc, &[], sheet, (&[], &[]), 4096);
    expect_status(rt, &ended, Status::Done);
    let text = str::from_utf8(ended.sink.bytes()).expect(rt, "no text");
    String::from_str(alloc, text).expect(rt, "no memory")
}

/// Compares the analysis of a sheet that is admitted.
fn expect_analysis(rt: &impl Abort, alloc: Global, sheet: &str, analysis: &str) {
    let Trial {
        words,
        mut source,
        mut sink,
    } = trial(rt, alloc, &["check"], sheet, (&[], &[]), 1000);
    let status = run_tool(alloc, words.as_slice(), &mut source, &mut sink);
    let ended = Ended {
        status,
        source,
        sink,
    };
    expect_end(rt, &ended, Status::Done, analysis);
}

#[test]
fn puts_the_tasks_into_their_order(rt: HostRuntime) {
    // The last is c, with 10 ticks of 12; b and a have more than theirs behind the others. Then a, with 3 of 4.
    let alloc = rt.alloc();
    expect_names(&rt, alloc, THREE, "ticks 12 rate 12 high b a c low");
    // What is written is a sheet that is admitted, with these responses.
    expect_analysis(
        &rt,
        alloc,
        written(&rt, alloc, THREE).as_str(),
        "heap work 4247 attempt 0 busy 10 debt 0
high b response 2 deadline 6
high a response 3 deadline 4
high c response 10 deadline 12
",
    );
}

#[test]
fn keeps_an_order_that_it_wrote(rt: HostRuntime) {
    let alloc = rt.alloc();
    let first = written(&rt, alloc, THREE);
    expect(&rt, alloc, first.as_str(), Status::Done, first.as_str());
}

#[test]
fn names_the_tasks_that_have_no_order(rt: HostRuntime) {
    // With the deadline 9 for c none of the three can be the last. The names stand in the order of the sheet.
    let alloc = rt.alloc();
    let short = edited(&rt, alloc, THREE, "deadline = 12", "deadline = 9");
    expect(
        &rt,
        alloc,
        short.as_str(),
        Status::NotAdmitted,
        "refused order c b a\n",
    );
    // One that has more time is none of them.
    let more = format!(in alloc;
        "{short}
[[high]]
name = \"d\"
period = 100
deadline = 100
cost = 1
words = 0
first = 0
every = 100
script = \"work 1\"
"
    )
    .expect(&rt, "no memory");
    expect(
        &rt,
        alloc,
        more.as_str(),
        Status::NotAdmitted,
        "refused order c b a\n",
    );
}

#[test]
fn minds_jitter(rt: HostRuntime) {
    // By deadlines y goes first, and then x, which may be ready 3 ticks late, has 6 of 5. Behind x, with 5, y has 3 of 4.
    let alloc = rt.alloc();
    let sheet = "version = 1
ticks = 10
heap = { live = 62, alloc = 512, reserve = 129, rate = 12, board = [2, 2] }

[[high]]
name = \"y\"
period = 10
deadline = 4
cost = 1
words = 0
first = 0
every = 10
script = \"work 1\"

[[high]]
name = \"x\"
period = 10
deadline = 5
cost = 2
words = 0
jitter = 3
first = 0
every = 10
script = \"work 2\"
";
    expect_names(&rt, alloc, sheet, "ticks 10 rate 12 high x y low");
}

/// Adds a task of 2 ticks in 10, whose name ends with this number.
fn add_task(rt: &impl Abort, alloc: Global, sheet: &mut String, task: u32) {
    let text = format!(in alloc;
        "
[[high]]
name = \"abcdefghijklmn{task}\"
period = 10
deadline = 10
cost = 2
words = 0
first = 0
every = 10
script = \"work 2\"
"
    )
    .expect(rt, "no memory");
    add(rt, sheet, text.as_str());
}

/// A sheet of twelve tasks, each of 2 ticks in 10 and with a name of 16 bytes.
fn twelve_tasks(rt: &impl Abort, alloc: Global) -> String {
    let head = "version = 1
ticks = 10
heap = { live = 62, alloc = 512, reserve = 129, rate = 12, board = [2, 2] }
";
    let mut sheet = String::from_str(alloc, head).expect(rt, "no memory");
    for task in 10..22 {
        add_task(rt, alloc, &mut sheet, task);
    }
    sheet
}

/// The line that refuses them.
fn line_of_twelve(rt: &impl Abort, alloc: Global) -> String {
    let mut line = String::from_str(alloc, "refused order").expect(rt, "no memory");
    for task in 10..22_u32 {
        let name = format!(in alloc; " abcdefghijklmn{task}").expect(rt, "no memory");
        add(rt, &mut line, name.as_str());
    }
    add(rt, &mut line, "\n");
    line
}

/// Compares that each call to write that fails, so many there are, leaves a first part of a text.
fn expect_parts(rt: &impl Abort, alloc: Global, sheet: &str, calls: u64, text: &[u8]) {
    for call in 0..calls {
        let ended = run(rt, alloc, &[], sheet, (&[], &[call]), 1000);
        expect_part(rt, &ended, text);
    }
}

#[test]
fn writes_a_line_of_any_length(rt: HostRuntime) {
    // The line has 218 bytes.
    let alloc = rt.alloc();
    let sheet = twelve_tasks(&rt, alloc);
    let line = line_of_twelve(&rt, alloc);
    assert!(rt; line.len() == 218);
    expect(
        &rt,
        alloc,
        sheet.as_str(),
        Status::NotAdmitted,
        line.as_str(),
    );
    // A first part of the line, where a write fails.
    let whole = run(&rt, alloc, &[], sheet.as_str(), (&[], &[]), 218);
    let calls = whole.sink.calls();
    expect_parts(&rt, alloc, sheet.as_str(), calls, line.as_bytes());
}

#[test]
fn writes_a_sheet_without_high_tasks(rt: HostRuntime) {
    let alloc = rt.alloc();
    let sheet = "version = 1
ticks = 7
heap = { live = 62, alloc = 512, reserve = 129, rate = 3, board = [2, 2] }

[[low]]
name = \"l\"
first = 0
every = 10
script = \"work 1\"
";
    expect_names(&rt, alloc, sheet, "ticks 7 rate 3 high low l");
}

#[test]
fn looks_at_no_other_condition(rt: HostRuntime) {
    // A rate that is too low, and a job that takes longer than its task declares.
    let alloc = rt.alloc();
    let slow = edited(&rt, alloc, THREE, "rate = 12", "rate = 1");
    let long = edited(&rt, alloc, slow.as_str(), "work 3", "work 300");
    expect_names(&rt, alloc, long.as_str(), "ticks 12 rate 1 high b a c low");
}
