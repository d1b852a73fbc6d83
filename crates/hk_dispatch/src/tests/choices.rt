//! Sessions worked out by hand: which of the ready jobs goes.
ghost use Rattle.std.specs.Prelude.{length, ◌-◌};
ghost use Rattle.std.proofs.Common.{rules};

use super::watch::{Row, check, check_by};
use crate::{Pick, Ready};
use std::test::Fail;

/// The jobs of the first task arrive at 0, 4 and 8, and become ready at 0, 7 and 10. The ticks of an end count from the
/// arrival.
const JITTER: Row = Row {
    sheet: r#"version = 1
ticks = 12
heap = { live = 62, alloc = 512, reserve = 129, rate = 12, board = [2, 2] }

[[high]]
name = "a"
cost = 1
period = 4
deadline = 4
words = 0
jitter = 3
lag = 3
first = 0
every = 4
script = "work 1"

[[high]]
name = "b"
cost = 2
period = 6
deadline = 6
words = 0
first = 0
every = 6
script = "work 2"

[[high]]
name = "c"
cost = 3
period = 12
deadline = 12
words = 0
first = 0
every = 12
script = "work 3"
"#,
    report: "heap work 4247 attempt 0 busy 11 debt 0
high a response 4 deadline 4
high b response 4 deadline 6
high c response 11 deadline 12
done a jobs 3 latest 4
done b jobs 2 latest 3
done c jobs 1 latest 6
cycles 0 collector 0 idle 2
end 12
",
    ticks: "a 0 to 0
b 1 to 2
c 3 to 5
b 6 to 6
a 7 to 7
b 8 to 8
idle 9 to 9
a 10 to 10
idle 11 to 11
",
};

#[test]
fn release_jitter(rt: HostRuntime) -> Result<(), Fail> {
    check(&rt, rt.alloc(), &JITTER)
}

/// A low put goes on before an earlier low task whose job has become ready meanwhile. A low `work` is no operation: the
/// earlier task goes between its ticks.
const TWO_LOW: Row = Row {
    sheet: r#"version = 1
ticks = 12
heap = { live = 62, alloc = 512, reserve = 129, rate = 11, board = [2, 2] }

[[low]]
name = "a"
arrivals = [1, 5]
script = "work 1"

[[low]]
name = "b"
arrivals = [0]
script = """
put r0 0 v0
work 3
"""
"#,
    report: "heap work 4213 attempt 0 busy 10 debt 0
low a
low b
done a jobs 2 latest 3
done b jobs 1 latest 8
cycles 0 collector 0 idle 4
end 12
",
    ticks: "b 0 to 2
a 3 to 3
b 4 to 4
a 5 to 5
b 6 to 7
idle 8 to 11
",
};

#[test]
fn two_low_tasks(rt: HostRuntime) -> Result<(), Fail> {
    check(&rt, rt.alloc(), &TWO_LOW)
}

/// The choice of the last row.
#[derive(Drop)]
struct Last;

impl Pick for Last {
    ghost choice = { λ pick rows. length rows - 1 };

    ghost chooses = { λ pick rows some rising. Prim.search rules };

    fn pick(&self, ready: &[Ready]) -> usize {
        ready.len() - 1
    }
}

/// Three high tasks whose first jobs arrive together. The last of them goes first; the second job of `b` takes over from `a`.
const LAST_FIRST: Row = Row {
    sheet: r#"version = 1
ticks = 12
heap = { live = 62, alloc = 512, reserve = 129, rate = 12, board = [2, 2] }

[[high]]
name = "a"
cost = 4
period = 20
deadline = 20
words = 0
arrivals = [0]
script = "work 4"

[[high]]
name = "b"
cost = 2
period = 6
deadline = 6
words = 0
first = 0
every = 6
script = "work 2"

[[high]]
name = "c"
cost = 3
period = 12
deadline = 12
words = 0
first = 0
every = 12
script = "work 3"
"#,
    report: "done a jobs 1 latest 11
done b jobs 2 latest 5
done c jobs 1 latest 3
cycles 0 collector 0 idle 1
end 12
",
    ticks: "c 0 to 2
b 3 to 4
a 5 to 5
b 6 to 7
a 8 to 10
idle 11 to 11
",
};

#[test]
fn last_goes_first(rt: HostRuntime) -> Result<(), Fail> {
    check_by(&rt, rt.alloc(), Last, &LAST_FIRST)
}
