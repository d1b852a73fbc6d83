//! Sheets worked out by hand, with their reports.
use super::expect_run;
use hk_io::Status;
use std::alloc::Global;
use std::process::Abort;

/// A sheet, and how its run ends.
#[derive(Clone, Copy)]
struct Row {
    sheet: &'static str,
    status: Status,
    report: &'static str,
}

const ROWS: &[Row] = &[
    // A high job that makes an object, and a low one that waits for the collector.
    Row {
        sheet: r#"version = 1
ticks = 120
heap = { live = 62, alloc = 512, reserve = 13, rate = 11, board = [2, 2] }

[[high]]
name = "a"
cost = 40
period = 1000
deadline = 1000
words = 3
arrivals = [0]
script = """
new r1 1 1
work 33
"""

[[low]]
name = "b"
arrivals = [0]
script = "new r1 1 1"
"#,
        status: Status::Done,
        report: "heap work 4213 attempt 34 busy 184 debt 134
high a response 40 deadline 1000
low b
done a jobs 1 latest 40
done b jobs 1 latest 80
cycles 1 collector 66 idle 7
end 120
",
    },
    // A put enters the board while the collector copies it, and the attempt is lost.
    Row {
        sheet: r#"version = 1
ticks = 100
heap = { live = 62, alloc = 512, reserve = 129, rate = 11, board = [2, 2] }

[[high]]
name = "a"
cost = 7
period = 1000
deadline = 1000
words = 5
arrivals = [0]
script = "new r1 1 3"

[[high]]
name = "p"
cost = 8
period = 1000
deadline = 1000
words = 0
arrivals = [38]
script = """
set v0 7
put r0 0 v0
get v1 r0 0
out v1
"""
"#,
        status: Status::Done,
        report: "heap work 4213 attempt 34 busy 138 debt 123
high a response 7 deadline 1000
high p response 15 deadline 1000
out 45 p 7
done a jobs 1 latest 7
done p jobs 1 latest 8
cycles 1 collector 65 idle 20
end 100
",
    },
    // So does a get, which changes nothing.
    Row {
        sheet: r#"version = 1
ticks = 100
heap = { live = 62, alloc = 512, reserve = 129, rate = 11, board = [2, 2] }

[[high]]
name = "a"
cost = 7
period = 1000
deadline = 1000
words = 5
arrivals = [0]
script = "new r1 1 3"

[[high]]
name = "p"
cost = 4
period = 1000
deadline = 1000
words = 0
arrivals = [38]
script = """
get v1 r0 0
out v1
"""
"#,
        status: Status::Done,
        report: "heap work 4213 attempt 34 busy 134 debt 123
high a response 7 deadline 1000
high p response 11 deadline 1000
out 41 p 0
done a jobs 1 latest 7
done p jobs 1 latest 4
cycles 1 collector 65 idle 24
end 100
",
    },
    // A low operation that a high job interrupts ends before the collector begins.
    Row {
        sheet: r#"version = 1
ticks = 60
heap = { live = 62, alloc = 512, reserve = 129, rate = 11, board = [2, 2] }

[[high]]
name = "a"
cost = 7
period = 1000
deadline = 1000
words = 3
arrivals = [2]
script = "new r1 1 1"

[[low]]
name = "b"
arrivals = [0]
script = """
put r0 0 v0
work 5
"""
"#,
        status: Status::Done,
        report: "heap work 4213 attempt 34 busy 118 debt 101
high a response 7 deadline 1000
low b
done a jobs 1 latest 7
done b jobs 1 latest 48
cycles 1 collector 33 idle 12
end 60
",
    },
    // As many words are live as are declared.
    Row {
        sheet: r#"version = 1
ticks = 100
heap = { live = 10, alloc = 512, reserve = 129, rate = 11, board = [2, 2] }

[[high]]
name = "a"
cost = 7
period = 1000
deadline = 1000
words = 5
arrivals = [0]
script = "new r1 1 3"
"#,
        status: Status::Done,
        report: "heap work 3711 attempt 34 busy 96 debt 89
high a response 7 deadline 1000
done a jobs 1 latest 7
cycles 1 collector 55 idle 38
end 100
",
    },
    // More words are live than are declared.
    Row {
        sheet: r#"version = 1
ticks = 100
heap = { live = 8, alloc = 512, reserve = 129, rate = 11, board = [2, 2] }

[[high]]
name = "a"
cost = 7
period = 1000
deadline = 1000
words = 5
arrivals = [0]
script = "new r1 1 3"
"#,
        status: Status::Live,
        report: "heap work 3693 attempt 34 busy 96 debt 89
high a response 7 deadline 1000
live 23 10 above 8
",
    },
    // A load through a null register ends its job.
    Row {
        sheet: r#"version = 1
ticks = 30
heap = { live = 62, alloc = 512, reserve = 129, rate = 11, board = [2, 2] }

[[high]]
name = "a"
cost = 11
period = 20
deadline = 20
words = 0
arrivals = [0, 20]
script = """
load r2 r1 0
out v0
"""
"#,
        status: Status::Done,
        report: "heap work 4179 attempt 0 busy 11 debt 0
high a response 11 deadline 20
fault 0 a 0 1 nil
fault 20 a 1 1 nil
done a jobs 2 latest 1
cycles 0 collector 0 idle 28
end 30
",
    },
    // A high job comes while a low put is in mid-course.
    Row {
        sheet: r#"version = 1
ticks = 20
heap = { live = 62, alloc = 512, reserve = 129, rate = 11, board = [2, 2] }

[[high]]
name = "a"
cost = 3
period = 1000
deadline = 1000
words = 0
arrivals = [2]
script = "get v0 r0 0"

[[low]]
name = "b"
arrivals = [0]
script = """
put r0 0 v0
work 5
"""
"#,
        status: Status::Done,
        report: "heap work 4213 attempt 0 busy 13 debt 0
high a response 3 deadline 1000
low b
done a jobs 1 latest 3
done b jobs 1 latest 11
cycles 0 collector 0 idle 9
end 20
",
    },
];

/// Runs these sheets, and compares how each run ends and what it writes.
fn expect_rows(rt: &impl Abort, alloc: Global, rows: &[Row]) {
    for row in rows {
        expect_run(rt, alloc, row.sheet, row.status, row.report);
    }
}

#[test]
fn rows(rt: HostRuntime) {
    expect_rows(&rt, rt.alloc(), ROWS);
}
