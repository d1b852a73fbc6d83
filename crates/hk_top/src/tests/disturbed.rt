//! A job that disturbs the collector while it copies the board, at one tick after another; and runs over a source or a sink that
//! fails at one call after another, until nothing fails.
use super::controller::CONTROLLER;
use super::{CHECK, RUN, changed, expect_end, expect_part, expect_run, run};
use hk_io::Status;
use std::alloc::Global;
use std::process::Abort;

/// `a` makes five words, for which the collector does 55 events from tick 7 on. It loads the board's header in tick 37, and
/// ends the attempt in tick 46.
const SHEET: &str = r#"version = 1
ticks = 100
heap = { live = 62, alloc = 512, reserve = 129, rate = 11, board = [2, 2] }

[[high]]
name = "a"
cost = 7
period = 1000
deadline = 1000
words = 5
arrivals = [0]
script = "new r1 1 3"

[[high]]
name = "p"
cost = 8
period = 1000
deadline = 1000
words = 0
arrivals = [38]
script = """
set v0 7
put r0 0 v0
get v1 r0 0
out v1
"""
"#;

const REPORT: &str = "heap work 4213 attempt 34 busy 138 debt 123
high a response 7 deadline 1000
high p response 15 deadline 1000
out 45 p 7
done a jobs 1 latest 7
done p jobs 1 latest 8
cycles 1 collector 65 idle 20
end 100
";

/// Arrivals of a job that gets a number of the board, and the collector's ticks: 55, and the ten of the attempt where it arrives
/// after the header was loaded and before the attempt has ended.
const GETS: &[(u64, u64)] = &[(7, 55), (37, 55), (38, 65), (46, 65), (47, 55), (61, 55)];

/// Compares the run in which the job that gets a number arrives at this tick.
fn expect_get(rt: &impl Abort, alloc: Global, arrival: u64, events: u64) {
    let arrivals = format!(in alloc; "arrivals = [{arrival}]").expect(rt, "no memory");
    let changes = [
        ("cost = 8", "cost = 4"),
        ("arrivals = [38]", arrivals.as_str()),
        ("set v0 7\nput r0 0 v0\n", ""),
    ];
    let sheet = changed(rt, alloc, SHEET, &changes);
    let (tick, idle) = (arrival.wrapping_add(3), 89_u64.wrapping_sub(events));
    let report = format!(in alloc;
        "heap work 4213 attempt 34 busy 134 debt 123
high a response 7 deadline 1000
high p response 11 deadline 1000
out {tick} p 0
done a jobs 1 latest 7
done p jobs 1 latest 4
cycles 1 collector {events} idle {idle}
end 100
"
    )
    .expect(rt, "no memory");
    expect_run(rt, alloc, sheet.as_str(), Status::Done, report.as_str());
}

#[test]
fn get_while_the_board_is_copied(rt: HostRuntime) {
    for (arrival, events) in GETS {
        expect_get(&rt, rt.alloc(), *arrival, *events);
    }
}

/// Compares that the run over a sink whose call of this number fails leaves a first part of the report; or that it is done.
fn is_written(rt: &impl Abort, alloc: Global, call: u64) -> bool {
    let ended = run(rt, alloc, RUN, SHEET, (&[], &[call]), 1000);
    let is_done = ended.status == Status::Done;
    if is_done {
        expect_end(rt, &ended, Status::Done, REPORT);
    } else {
        expect_part(rt, &ended, REPORT);
    }
    is_done
}

#[test]
fn each_write_fails_until_the_run_is_done(rt: HostRuntime) {
    let mut done_at = None;
    for call in 0..1000_u64 {
        if is_written(&rt, rt.alloc(), call) {
            done_at = Some(call);
            break;
        }
    }
    assert!(&rt; matches!(done_at, Some(call) if call > 0));
}

/// Compares that the check over a source whose call of this number fails writes nothing; or that it is done.
fn is_read(rt: &impl Abort, alloc: Global, call: u64) -> bool {
    let ended = run(rt, alloc, CHECK, CONTROLLER, (&[call], &[]), 1000);
    let is_done = ended.status == Status::Done;
    if !is_done {
        expect_end(rt, &ended, Status::ReadFault, "");
    }
    is_done
}

#[test]
fn each_read_fails_until_the_check_is_done(rt: HostRuntime) {
    let mut done_at = None;
    for call in 0..1000_u64 {
        if is_read(&rt, rt.alloc(), call) {
            done_at = Some(call);
            break;
        }
    }
    assert!(&rt; matches!(done_at, Some(call) if call > 0));
}
