//! Sessions worked out by hand: lost attempts of the collector, and live memory at its limit.
use super::watch::{Row, check};
use std::test::Fail;

/// A put enters the board while the collector copies it, right after it loaded the board's header: the attempt is lost.
/// Its ten events, the exchange included, are owed again.
const PUT_SPOILS: Row = Row {
    sheet: r#"version = 1
ticks = 100
heap = { live = 62, alloc = 512, reserve = 129, rate = 11, board = [2, 2] }

[[high]]
name = "a"
cost = 7
period = 1000
deadline = 1000
words = 5
arrivals = [0]
script = "new r1 1 3"

[[high]]
name = "p"
cost = 8
period = 1000
deadline = 1000
words = 0
arrivals = [38]
script = """
set v0 7
put r0 0 v0
get v1 r0 0
out v1
"""
"#,
    report: "heap work 4213 attempt 34 busy 138 debt 123
high a response 7 deadline 1000
high p response 15 deadline 1000
out 45 p 7
done a jobs 1 latest 7
done p jobs 1 latest 8
cycles 1 collector 65 idle 20
end 100
",
    ticks: "a 0 to 6
flip 7
collector 7 to 37
p 38 to 45
lost 54 10
collector 46 to 79
idle 80 to 99
",
};

#[test]
fn put_spoils_a_copy(rt: HostRuntime) -> Result<(), Fail> {
    check(&rt, rt.alloc(), &PUT_SPOILS)
}

/// A get that changes nothing spoils the attempt too, since it enters the board.
const GET_SPOILS: Row = Row {
    sheet: r#"version = 1
ticks = 100
heap = { live = 62, alloc = 512, reserve = 129, rate = 11, board = [2, 2] }

[[high]]
name = "a"
cost = 7
period = 1000
deadline = 1000
words = 5
arrivals = [0]
script = "new r1 1 3"

[[high]]
name = "p"
cost = 4
period = 1000
deadline = 1000
words = 0
arrivals = [38]
script = """
get v1 r0 0
out v1
"""
"#,
    report: "heap work 4213 attempt 34 busy 134 debt 123
high a response 7 deadline 1000
high p response 11 deadline 1000
out 41 p 0
done a jobs 1 latest 7
done p jobs 1 latest 4
cycles 1 collector 65 idle 24
end 100
",
    ticks: "a 0 to 6
flip 7
collector 7 to 37
p 38 to 41
lost 50 10
collector 42 to 75
idle 76 to 99
",
};

#[test]
fn get_spoils_a_copy(rt: HostRuntime) -> Result<(), Fail> {
    check(&rt, rt.alloc(), &GET_SPOILS)
}

/// The board and an object of five words are live, ten words where ten are declared.
const LIVE_AT_LIMIT: Row = Row {
    sheet: r#"version = 1
ticks = 100
heap = { live = 10, alloc = 512, reserve = 129, rate = 11, board = [2, 2] }

[[high]]
name = "a"
cost = 7
period = 1000
deadline = 1000
words = 5
arrivals = [0]
script = "new r1 1 3"
"#,
    report: "heap work 3711 attempt 34 busy 96 debt 89
high a response 7 deadline 1000
done a jobs 1 latest 7
cycles 1 collector 55 idle 38
end 100
",
    ticks: "a 0 to 6
flip 7
collector 7 to 61
idle 62 to 99
",
};

#[test]
fn live_at_the_limit(rt: HostRuntime) -> Result<(), Fail> {
    check(&rt, rt.alloc(), &LIVE_AT_LIMIT)
}

/// The same where eight words are declared.
const LIVE_ABOVE_LIMIT: Row = Row {
    sheet: r#"version = 1
ticks = 100
heap = { live = 8, alloc = 512, reserve = 129, rate = 11, board = [2, 2] }

[[high]]
name = "a"
cost = 7
period = 1000
deadline = 1000
words = 5
arrivals = [0]
script = "new r1 1 3"
"#,
    report: "heap work 3693 attempt 34 busy 96 debt 89
high a response 7 deadline 1000
live 23 10 above 8
",
    ticks: "a 0 to 6
flip 7
collector 7 to 22
",
};

#[test]
fn live_above_the_limit(rt: HostRuntime) -> Result<(), Fail> {
    check(&rt, rt.alloc(), &LIVE_ABOVE_LIMIT)
}
