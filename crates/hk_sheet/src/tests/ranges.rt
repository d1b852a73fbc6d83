//! The ends of ranges, and which of two faults counts. Each wanted line is worked out from the rules of the sheet.
use super::{Case, HIGH, LAST, LOW, expect_each};
use std::test::Fail;

/// A number is at an end of its range, or past it.
const RANGES_1: &[Case] = &[
    Case {
        edits: &[("version = 1", "version = 0")],
        wanted: "range version",
    },
    Case {
        edits: &[("version = 1", "version = 3")],
        wanted: "range version",
    },
    Case {
        edits: &[("ticks = 100", "ticks = 0")],
        wanted: "range ticks",
    },
    Case {
        edits: &[("ticks = 100", "ticks = 16777217")],
        wanted: "range ticks",
    },
    Case {
        edits: &[("live = 62", "live = -1")],
        wanted: "range heap.live",
    },
    Case {
        edits: &[("live = 62", "live = 1000001")],
        wanted: "range heap.live",
    },
    Case {
        edits: &[("alloc = 512", "alloc = -1")],
        wanted: "range heap.alloc",
    },
    Case {
        edits: &[("alloc = 512", "alloc = 1000001")],
        wanted: "range heap.alloc",
    },
    Case {
        edits: &[("reserve = 129", "reserve = -1")],
        wanted: "range heap.reserve",
    },
    Case {
        edits: &[("reserve = 129", "reserve = 1000001")],
        wanted: "range heap.reserve",
    },
    Case {
        edits: &[("rate = 11", "rate = 0")],
        wanted: "range heap.rate",
    },
    Case {
        edits: &[("rate = 11", "rate = 4097")],
        wanted: "range heap.rate",
    },
    Case {
        edits: &[("[2, 3]", "[-1, 3]")],
        wanted: "range heap.board",
    },
    Case {
        edits: &[("[2, 3]", "[256, 3]")],
        wanted: "range heap.board",
    },
    Case {
        edits: &[("[2, 3]", "[2, -1]")],
        wanted: "range heap.board",
    },
    Case {
        edits: &[("[2, 3]", "[2, 256]")],
        wanted: "range heap.board",
    },
    Case {
        edits: &[("period = 10", "period = 0")],
        wanted: "range high[0].period",
    },
    Case {
        edits: &[("period = 10", "period = 16777217")],
        wanted: "range high[0].period",
    },
    Case {
        edits: &[("deadline = 9", "deadline = 0")],
        wanted: "range high[0].deadline",
    },
    Case {
        edits: &[("deadline = 9", "deadline = 11")],
        wanted: "range high[0].deadline",
    },
    Case {
        edits: &[("cost = 8", "cost = 0")],
        wanted: "range high[0].cost",
    },
    Case {
        edits: &[("cost = 8", "cost = 16777217")],
        wanted: "range high[0].cost",
    },
    Case {
        edits: &[("words = 7", "words = -1")],
        wanted: "range high[0].words",
    },
    Case {
        edits: &[("words = 7", "words = 16777217")],
        wanted: "range high[0].words",
    },
    Case {
        edits: &[("first = 6", "first = -1")],
        wanted: "range high[0].first",
    },
    Case {
        edits: &[("first = 6", "first = 16777217")],
        wanted: "range high[0].first",
    },
    Case {
        edits: &[("every = 11", "every = 0")],
        wanted: "range high[0].every",
    },
    Case {
        edits: &[("every = 11", "every = 16777217")],
        wanted: "range high[0].every",
    },
    Case {
        edits: &[("[3, 4, 9]", "[-1, 4, 9]")],
        wanted: "range low[0].arrivals",
    },
    Case {
        edits: &[("[3, 4, 9]", "[3, 4, 100]")],
        wanted: "range low[0].arrivals",
    },
    Case {
        edits: &[("first = 0", "first = -1")],
        wanted: "range low[1].first",
    },
    Case {
        edits: &[("every = 1\n", "every = 0\n")],
        wanted: "range low[1].every",
    },
];

#[test]
fn refuses_out_of_range_1(rt: HostRuntime) -> Result<(), Fail> {
    expect_each(&rt, rt.alloc(), RANGES_1)?;
    Ok(())
}

/// A number is at an end of its range, or past it.
const RANGES_2: &[Case] = &[
    Case {
        edits: &[("version = 1", "version = -9223372036854775808")],
        wanted: "range version",
    },
    Case {
        edits: &[("ticks = 100", "ticks = 9223372036854775807")],
        wanted: "range ticks",
    },
    Case {
        edits: &[("ticks = 100", "ticks = 16777216")],
        wanted: "read",
    },
    Case {
        edits: &[("reserve = 129", "reserve = 0")],
        wanted: "read",
    },
    Case {
        edits: &[("rate = 11", "rate = 1")],
        wanted: "read",
    },
    Case {
        edits: &[("rate = 11", "rate = 4096")],
        wanted: "read",
    },
    Case {
        edits: &[("[2, 3]", "[0, 1]")],
        wanted: "read",
    },
    Case {
        edits: &[("deadline = 9", "deadline = 10")],
        wanted: "read",
    },
    Case {
        edits: &[("deadline = 9", "deadline = 1")],
        wanted: "read",
    },
    Case {
        edits: &[("cost = 8", "cost = 16777216")],
        wanted: "read",
    },
    Case {
        edits: &[("cost = 8", "cost = 1")],
        wanted: "read",
    },
    Case {
        edits: &[("words = 7", "words = 16777216")],
        wanted: "read",
    },
    Case {
        edits: &[("words = 7", "words = 0")],
        wanted: "read",
    },
    Case {
        edits: &[("first = 6", "first = 16777216")],
        wanted: "read",
    },
    Case {
        edits: &[("first = 6", "first = 0")],
        wanted: "read",
    },
    Case {
        edits: &[("every = 11", "every = 16777216")],
        wanted: "read",
    },
    Case {
        edits: &[("every = 11", "every = 10")],
        wanted: "read",
    },
    Case {
        edits: &[
            ("period = 10", "period = 16777216"),
            ("every = 11", "every = 16777216"),
        ],
        wanted: "read",
    },
    Case {
        edits: &[
            ("period = 10", "period = 1"),
            ("deadline = 9", "deadline = 1"),
        ],
        wanted: "read",
    },
    Case {
        edits: &[("[3, 4, 9]", "[0, 1, 99]")],
        wanted: "read",
    },
    Case {
        edits: &[("every = 1\n", "every = 16777216\n")],
        wanted: "read",
    },
];

#[test]
fn refuses_out_of_range_2(rt: HostRuntime) -> Result<(), Fail> {
    expect_each(&rt, rt.alloc(), RANGES_2)?;
    Ok(())
}

/// Of two faults the first counts: in a table an unknown key, then key by key, and a kind before a range.
const ORDER: &[Case] = &[
    Case {
        edits: &[("version = 1\n", "x = 1\n")],
        wanted: "unknown x",
    },
    Case {
        edits: &[("version = 1\n", ""), ("ticks = 100", "ticks = 0")],
        wanted: "missing version",
    },
    Case {
        edits: &[
            ("version = 1", "version = '1'"),
            ("ticks = 100", "ticks = '1'"),
        ],
        wanted: "kind version",
    },
    Case {
        edits: &[("ticks = 100", "ticks = '1'"), ("live = 62", "live = -1")],
        wanted: "kind ticks",
    },
    Case {
        edits: &[("live = 62", "live = -1"), ("alloc = 512\n", "")],
        wanted: "range heap.live",
    },
    Case {
        edits: &[("alloc = 512\n", ""), ("rate = 11", "rate = 0")],
        wanted: "missing heap.alloc",
    },
    Case {
        edits: &[("[2, 3]", "[300, 'x']")],
        wanted: "kind heap.board",
    },
    Case {
        edits: &[("[3, 4, 9]", "[100, 'x']")],
        wanted: "kind low[0].arrivals",
    },
    Case {
        edits: &[
            (HIGH, ""),
            ("ticks", "high = 1\nticks"),
            ("live = 62", "live = 'x'"),
        ],
        wanted: "kind high",
    },
    Case {
        edits: &[
            (LOW, ""),
            (LAST, ""),
            ("ticks", "low = 1\nticks"),
            ("live = 62\n", ""),
        ],
        wanted: "kind low",
    },
    Case {
        edits: &[("cost = 8", "cost = 0"), ("words = 7", "words = -1")],
        wanted: "range high[0].cost",
    },
    Case {
        edits: &[
            ("period = 10", "period = 0"),
            ("deadline = 9", "deadline = 11"),
        ],
        wanted: "range high[0].period",
    },
    Case {
        edits: &[("words = 7", "words = -1"), ("name = \"b\"", "name = 1")],
        wanted: "range high[0].words",
    },
    Case {
        edits: &[
            ("script = \"work 2\"", "script = 2"),
            ("name = \"a\"", "name = 'A'"),
        ],
        wanted: "kind low[1].script",
    },
    Case {
        edits: &[
            ("name = \"c\"", "name = 1"),
            ("arrivals = [3, 4, 9]", "arrivals = [9, 3]"),
        ],
        wanted: "kind low[1].name",
    },
    Case {
        edits: &[
            ("every = 1\n", "every = 1\nx = 1\n"),
            ("script = \"work 1\"", "script = \"\""),
        ],
        wanted: "unknown low[1].x",
    },
    Case {
        edits: &[("rate = 11", "rate = 'x'\nx = 1"), ("cost = 8", "cost = 0")],
        wanted: "unknown heap.x",
    },
];

#[test]
fn refuses_the_first_fault(rt: HostRuntime) -> Result<(), Fail> {
    expect_each(&rt, rt.alloc(), ORDER)?;
    Ok(())
}
