//! Values that are not of their kind. Each wanted line is worked out from the rules of the sheet.
use super::{Case, HEAP, HIGH, LAST, LOW, expect_each};
use std::test::Fail;

/// A value isn't of its kind.
const KINDS_1: &[Case] = &[
    Case {
        edits: &[("version = 1", "version = 1.0")],
        wanted: "kind version",
    },
    Case {
        edits: &[("version = 1", "version = true")],
        wanted: "kind version",
    },
    Case {
        edits: &[("version = 1", "version = '1'")],
        wanted: "kind version",
    },
    Case {
        edits: &[("version = 1", "version = [1]")],
        wanted: "kind version",
    },
    Case {
        edits: &[("version = 1", "version = {x = 1}")],
        wanted: "kind version",
    },
    Case {
        edits: &[("version = 1", "version = 1979-05-27")],
        wanted: "kind version",
    },
    Case {
        edits: &[("ticks = 100", "ticks = 1.0")],
        wanted: "kind ticks",
    },
    Case {
        edits: &[("ticks = 100", "ticks = true")],
        wanted: "kind ticks",
    },
    Case {
        edits: &[("ticks = 100", "ticks = '1'")],
        wanted: "kind ticks",
    },
    Case {
        edits: &[("ticks = 100", "ticks = [1]")],
        wanted: "kind ticks",
    },
    Case {
        edits: &[("ticks = 100", "ticks = {x = 1}")],
        wanted: "kind ticks",
    },
    Case {
        edits: &[("ticks = 100", "ticks = 1979-05-27")],
        wanted: "kind ticks",
    },
    Case {
        edits: &[("live = 62", "live = 62.0")],
        wanted: "kind heap.live",
    },
    Case {
        edits: &[("live = 62", "live = false")],
        wanted: "kind heap.live",
    },
    Case {
        edits: &[("live = 62", "live = '62'")],
        wanted: "kind heap.live",
    },
    Case {
        edits: &[("live = 62", "live = []")],
        wanted: "kind heap.live",
    },
    Case {
        edits: &[("live = 62", "live = {}")],
        wanted: "kind heap.live",
    },
    Case {
        edits: &[("live = 62", "live = 07:32:00")],
        wanted: "kind heap.live",
    },
    Case {
        edits: &[("alloc = 512", "alloc = inf")],
        wanted: "kind heap.alloc",
    },
    Case {
        edits: &[("alloc = 512", "alloc = true")],
        wanted: "kind heap.alloc",
    },
    Case {
        edits: &[("reserve = 129", "reserve = nan")],
        wanted: "kind heap.reserve",
    },
    Case {
        edits: &[("reserve = 129", "reserve = [129]")],
        wanted: "kind heap.reserve",
    },
    Case {
        edits: &[("rate = 11", "rate = 1e1")],
        wanted: "kind heap.rate",
    },
    Case {
        edits: &[("rate = 11", "rate = '11'")],
        wanted: "kind heap.rate",
    },
    Case {
        edits: &[("board = [2, 3]", "board = 2")],
        wanted: "kind heap.board",
    },
    Case {
        edits: &[("board = [2, 3]", "board = '2, 3'")],
        wanted: "kind heap.board",
    },
    Case {
        edits: &[("board = [2, 3]", "board = []")],
        wanted: "kind heap.board",
    },
    Case {
        edits: &[("board = [2, 3]", "board = [2]")],
        wanted: "kind heap.board",
    },
    Case {
        edits: &[("board = [2, 3]", "board = [2, 3, 4]")],
        wanted: "kind heap.board",
    },
    Case {
        edits: &[("board = [2, 3]", "board = [2, 3.0]")],
        wanted: "kind heap.board",
    },
    Case {
        edits: &[("board = [2, 3]", "board = [true, 3]")],
        wanted: "kind heap.board",
    },
    Case {
        edits: &[("board = [2, 3]", "board = [[2, 3]]")],
        wanted: "kind heap.board",
    },
];

#[test]
fn refuses_other_kinds_1(rt: HostRuntime) -> Result<(), Fail> {
    expect_each(&rt, rt.alloc(), KINDS_1)?;
    Ok(())
}

/// A value isn't of its kind.
const KINDS_2: &[Case] = &[
    Case {
        edits: &[("board = [2, 3]", "board = {refs = 2, nums = 3}")],
        wanted: "kind heap.board",
    },
    Case {
        edits: &[("board = [2, 3]", "board = [256]")],
        wanted: "kind heap.board",
    },
    Case {
        edits: &[("board = [2, 3]", "board = [300, 'x']")],
        wanted: "kind heap.board",
    },
    Case {
        edits: &[(HEAP, "heap = 1\n")],
        wanted: "kind heap",
    },
    Case {
        edits: &[("[heap]", "[[heap]]")],
        wanted: "kind heap",
    },
    Case {
        edits: &[(HIGH, ""), ("ticks", "high = 1\nticks")],
        wanted: "kind high",
    },
    Case {
        edits: &[(HIGH, ""), ("ticks", "high = {name = 'a'}\nticks")],
        wanted: "kind high",
    },
    Case {
        edits: &[(HIGH, ""), ("ticks", "high = [{}, 1]\nticks")],
        wanted: "kind high",
    },
    Case {
        edits: &[(LOW, ""), (LAST, ""), ("ticks", "low = [[]]\nticks")],
        wanted: "kind low",
    },
    Case {
        edits: &[(LOW, ""), (LAST, ""), ("ticks", "low = true\nticks")],
        wanted: "kind low",
    },
    Case {
        edits: &[("name = \"a\"", "name = 1")],
        wanted: "kind high[0].name",
    },
    Case {
        edits: &[("name = \"a\"", "name = ['a']")],
        wanted: "kind high[0].name",
    },
    Case {
        edits: &[("name = \"a\"", "name = true")],
        wanted: "kind high[0].name",
    },
    Case {
        edits: &[("name = \"a\"", "name = {}")],
        wanted: "kind high[0].name",
    },
    Case {
        edits: &[("period = 10", "period = 10.0")],
        wanted: "kind high[0].period",
    },
    Case {
        edits: &[("period = 10", "period = '10'")],
        wanted: "kind high[0].period",
    },
    Case {
        edits: &[("deadline = 9", "deadline = 9.0")],
        wanted: "kind high[0].deadline",
    },
    Case {
        edits: &[("deadline = 9", "deadline = [9]")],
        wanted: "kind high[0].deadline",
    },
    Case {
        edits: &[("cost = 8", "cost = 8.0")],
        wanted: "kind high[0].cost",
    },
    Case {
        edits: &[("cost = 8", "cost = true")],
        wanted: "kind high[0].cost",
    },
    Case {
        edits: &[("words = 7", "words = 7.0")],
        wanted: "kind high[0].words",
    },
    Case {
        edits: &[("words = 7", "words = {}")],
        wanted: "kind high[0].words",
    },
    Case {
        edits: &[("first = 6", "first = 6.0")],
        wanted: "kind high[0].first",
    },
    Case {
        edits: &[("first = 6", "first = 1979-05-27T07:32:00Z")],
        wanted: "kind high[0].first",
    },
    Case {
        edits: &[("every = 11", "every = 11.0")],
        wanted: "kind high[0].every",
    },
    Case {
        edits: &[("every = 11", "every = []")],
        wanted: "kind high[0].every",
    },
    Case {
        edits: &[("script = \"work 1\"", "script = 1")],
        wanted: "kind high[0].script",
    },
    Case {
        edits: &[("script = \"work 1\"", "script = ['work 1']")],
        wanted: "kind high[0].script",
    },
    Case {
        edits: &[("arrivals = [3, 4, 9]", "arrivals = 3")],
        wanted: "kind low[0].arrivals",
    },
    Case {
        edits: &[("arrivals = [3, 4, 9]", "arrivals = '3'")],
        wanted: "kind low[0].arrivals",
    },
    Case {
        edits: &[("arrivals = [3, 4, 9]", "arrivals = {}")],
        wanted: "kind low[0].arrivals",
    },
    Case {
        edits: &[("arrivals = [3, 4, 9]", "arrivals = [3, '4']")],
        wanted: "kind low[0].arrivals",
    },
];

#[test]
fn refuses_other_kinds_2(rt: HostRuntime) -> Result<(), Fail> {
    expect_each(&rt, rt.alloc(), KINDS_2)?;
    Ok(())
}

/// A value isn't of its kind.
const KINDS_3: &[Case] = &[
    Case {
        edits: &[("arrivals = [3, 4, 9]", "arrivals = [3, 4.0]")],
        wanted: "kind low[0].arrivals",
    },
    Case {
        edits: &[("arrivals = [3, 4, 9]", "arrivals = [3, true]")],
        wanted: "kind low[0].arrivals",
    },
    Case {
        edits: &[("arrivals = [3, 4, 9]", "arrivals = [[3]]")],
        wanted: "kind low[0].arrivals",
    },
    Case {
        edits: &[("arrivals = [3, 4, 9]", "arrivals = [100, 'x']")],
        wanted: "kind low[0].arrivals",
    },
    Case {
        edits: &[("every = 1\n", "every = 1.0\n")],
        wanted: "kind low[1].every",
    },
];

#[test]
fn refuses_other_kinds_3(rt: HostRuntime) -> Result<(), Fail> {
    expect_each(&rt, rt.alloc(), KINDS_3)?;
    Ok(())
}
