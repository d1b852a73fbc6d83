//! Sessions worked out by hand: whose tick it is, with and without objects.
use super::watch::{Row, check};
use std::test::Fail;

/// A high job that makes an object, and a low one. Each word makes the collector owe 11 events, which it does after the job
/// that took it and before the next low one: 33 for the three words of each job.
const RESERVE: Row = Row {
    sheet: r#"version = 1
ticks = 120
heap = { live = 62, alloc = 512, reserve = 13, rate = 11, board = [2, 2] }

[[high]]
name = "a"
cost = 40
period = 1000
deadline = 1000
words = 3
arrivals = [0]
script = """
new r1 1 1
work 33
"""

[[low]]
name = "b"
arrivals = [0]
script = "new r1 1 1"
"#,
    report: "heap work 4213 attempt 34 busy 184 debt 134
high a response 40 deadline 1000
low b
done a jobs 1 latest 40
done b jobs 1 latest 80
cycles 1 collector 66 idle 7
end 120
",
    ticks: "a 0 to 39
flip 40
collector 40 to 72
b 73 to 79
collector 80 to 112
idle 113 to 119
",
};

#[test]
fn reserve(rt: HostRuntime) -> Result<(), Fail> {
    check(&rt, rt.alloc(), &RESERVE)
}

/// A low operation that a high job interrupts ends before the collector begins.
const LOW_FIRST: Row = Row {
    sheet: r#"version = 1
ticks = 60
heap = { live = 62, alloc = 512, reserve = 129, rate = 11, board = [2, 2] }

[[high]]
name = "a"
cost = 7
period = 1000
deadline = 1000
words = 3
arrivals = [2]
script = "new r1 1 1"

[[low]]
name = "b"
arrivals = [0]
script = """
put r0 0 v0
work 5
"""
"#,
    report: "heap work 4213 attempt 34 busy 118 debt 101
high a response 7 deadline 1000
low b
done a jobs 1 latest 7
done b jobs 1 latest 48
cycles 1 collector 33 idle 12
end 60
",
    ticks: "b 0 to 1
a 2 to 8
b 9 to 9
flip 10
collector 10 to 42
b 43 to 47
idle 48 to 59
",
};

#[test]
fn low_operation_ends_first(rt: HostRuntime) -> Result<(), Fail> {
    check(&rt, rt.alloc(), &LOW_FIRST)
}

/// A load through a null register takes one tick, with which its job ends. The next job runs as usual.
const NULL: Row = Row {
    sheet: r#"version = 1
ticks = 30
heap = { live = 62, alloc = 512, reserve = 129, rate = 11, board = [2, 2] }

[[high]]
name = "a"
cost = 11
period = 20
deadline = 20
words = 0
arrivals = [0, 20]
script = """
load r2 r1 0
out v0
"""
"#,
    report: "heap work 4179 attempt 0 busy 11 debt 0
high a response 11 deadline 20
fault 0 a 0 1 nil
fault 20 a 1 1 nil
done a jobs 2 latest 1
cycles 0 collector 0 idle 28
end 30
",
    ticks: "a 0 to 0
idle 1 to 19
a 20 to 20
idle 21 to 29
",
};

#[test]
fn null_register(rt: HostRuntime) -> Result<(), Fail> {
    check(&rt, rt.alloc(), &NULL)
}

/// A high job comes while a low put is in mid-course.
const NO_OBJECTS: Row = Row {
    sheet: r#"version = 1
ticks = 20
heap = { live = 62, alloc = 512, reserve = 129, rate = 11, board = [2, 2] }

[[high]]
name = "a"
cost = 3
period = 1000
deadline = 1000
words = 0
arrivals = [2]
script = "get v0 r0 0"

[[low]]
name = "b"
arrivals = [0]
script = """
put r0 0 v0
work 5
"""
"#,
    report: "heap work 4213 attempt 0 busy 13 debt 0
high a response 3 deadline 1000
low b
done a jobs 1 latest 3
done b jobs 1 latest 11
cycles 0 collector 0 idle 9
end 20
",
    ticks: "b 0 to 1
a 2 to 4
b 5 to 10
idle 11 to 19
",
};

#[test]
fn without_objects(rt: HostRuntime) -> Result<(), Fail> {
    check(&rt, rt.alloc(), &NO_OBJECTS)
}
