//! Keys that are missing or unknown. Each wanted line is worked out from the rules of the sheet.
use super::{Case, HEAP, expect_each};
use std::test::Fail;

/// A key is missing.
const MISSING: &[Case] = &[
    Case {
        edits: &[("version = 1\n", "")],
        wanted: "missing version",
    },
    Case {
        edits: &[("ticks = 100\n", "")],
        wanted: "missing ticks",
    },
    Case {
        edits: &[(HEAP, "")],
        wanted: "missing heap",
    },
    Case {
        edits: &[("live = 62\n", "")],
        wanted: "missing heap.live",
    },
    Case {
        edits: &[("alloc = 512\n", "")],
        wanted: "missing heap.alloc",
    },
    Case {
        edits: &[("reserve = 129\n", "")],
        wanted: "missing heap.reserve",
    },
    Case {
        edits: &[("rate = 11\n", "")],
        wanted: "missing heap.rate",
    },
    Case {
        edits: &[("board = [2, 3]\n", "")],
        wanted: "missing heap.board",
    },
    Case {
        edits: &[("name = \"a\"\n", "")],
        wanted: "missing high[0].name",
    },
    Case {
        edits: &[("period = 10\n", "")],
        wanted: "missing high[0].period",
    },
    Case {
        edits: &[("deadline = 9\n", "")],
        wanted: "missing high[0].deadline",
    },
    Case {
        edits: &[("cost = 8\n", "")],
        wanted: "missing high[0].cost",
    },
    Case {
        edits: &[("words = 7\n", "")],
        wanted: "missing high[0].words",
    },
    Case {
        edits: &[("first = 6\n", "")],
        wanted: "missing high[0].first",
    },
    Case {
        edits: &[("every = 11\n", "")],
        wanted: "missing high[0].every",
    },
    Case {
        edits: &[("script = \"work 1\"\n", "")],
        wanted: "missing high[0].script",
    },
    Case {
        edits: &[("name = \"b\"\n", "")],
        wanted: "missing low[0].name",
    },
    Case {
        edits: &[("arrivals = [3, 4, 9]\n", "")],
        wanted: "missing low[0].first",
    },
    Case {
        edits: &[("script = \"out v0\"\n", "")],
        wanted: "missing low[0].script",
    },
    Case {
        edits: &[("first = 0\n", "")],
        wanted: "missing low[1].first",
    },
    Case {
        edits: &[("every = 1\n", "")],
        wanted: "missing low[1].every",
    },
];

#[test]
fn refuses_missing_keys(rt: HostRuntime) -> Result<(), Fail> {
    expect_each(&rt, rt.alloc(), MISSING)?;
    Ok(())
}

/// A key is unknown.
const UNKNOWN: &[Case] = &[
    Case {
        edits: &[("version", "x = 1\nversion")],
        wanted: "unknown x",
    },
    Case {
        edits: &[("version", "x.y = 1\nversion")],
        wanted: "unknown x",
    },
    Case {
        edits: &[("version", "Version")],
        wanted: "unknown Version",
    },
    Case {
        edits: &[("live", "x = 1\nlive")],
        wanted: "unknown heap.x",
    },
    Case {
        edits: &[("period", "x = 1\nperiod")],
        wanted: "unknown high[0].x",
    },
    Case {
        edits: &[("arrivals", "cost = 1\narrivals")],
        wanted: "unknown low[0].cost",
    },
    Case {
        edits: &[("arrivals", "period = 1\narrivals")],
        wanted: "unknown low[0].period",
    },
    Case {
        edits: &[("first = 6", "arrivals = [6]\nfirst = 6")],
        wanted: "unknown high[0].every",
    },
    Case {
        edits: &[("first = 6\nevery = 11", "arrivals = 'x'\nfirst = 6")],
        wanted: "unknown high[0].first",
    },
    Case {
        edits: &[("first = 0", "arrivals = [1]")],
        wanted: "unknown low[1].every",
    },
];

#[test]
fn refuses_unknown_keys(rt: HostRuntime) -> Result<(), Fail> {
    expect_each(&rt, rt.alloc(), UNKNOWN)?;
    Ok(())
}

/// The least unknown key, by its bytes, also where it comes later; a path is shown in ASCII and cut.
const LEAST: &[Case] = &[
    Case {
        edits: &[("version", "b = 1\na = 1\nversion")],
        wanted: "unknown a",
    },
    Case {
        edits: &[("version", "a = 1\nB = 1\nversion")],
        wanted: "unknown B",
    },
    Case {
        edits: &[("version", "aa = 1\na = 1\nversion")],
        wanted: "unknown a",
    },
    Case {
        edits: &[("version", "'' = 1\na = 1\nversion")],
        wanted: "unknown ",
    },
    Case {
        edits: &[("live", "'' = 1\nlive")],
        wanted: "unknown heap.",
    },
    Case {
        edits: &[("version", "\"\u{e9}\" = 1\nversion")],
        wanted: "unknown ?",
    },
    Case {
        edits: &[("version", "\"\u{65e5}\u{e9}\" = 1\nversion")],
        wanted: "unknown ??",
    },
    Case {
        edits: &[("version", "\"a\\tb\" = 1\nversion")],
        wanted: "unknown a?b",
    },
    Case {
        edits: &[("version", "\"a b\" = 1\nversion")],
        wanted: "unknown a?b",
    },
    Case {
        edits: &[("version", "\"\\u007f\" = 1\nversion")],
        wanted: "unknown ?",
    },
    Case {
        edits: &[("version", "\"!~\" = 1\nversion")],
        wanted: "unknown !~",
    },
    Case {
        edits: &[("version", "\"\u{e9}\" = 1\nz = 1\nversion")],
        wanted: "unknown z",
    },
    Case {
        edits: &[("version", "\"\u{ea}\" = 1\n\"\u{e9}a\" = 1\nversion")],
        wanted: "unknown ?a",
    },
    Case {
        edits: &[(
            "version",
            "kkkkkkkkkkkkkkkkkkkkkkkkkkkkkkkkkkkkkkkkkkkkkkkkkkkkkkkkkkkkkkkkkkkkkkkkkkkkkkkkkkkkkkkkkkkkkkkkkkkk = 1\nversion",
        )],
        wanted: "unknown kkkkkkkkkkkkkkkkkkkkkkkkkkkkkkkkkkkkkkkkkkkkkkkkkkkkkkkkkkkkkkkkkkkkkkkkkkkkkkkk",
    },
    Case {
        edits: &[(
            "live",
            "kkkkkkkkkkkkkkkkkkkkkkkkkkkkkkkkkkkkkkkkkkkkkkkkkkkkkkkkkkkkkkkkkkkkkkkkkkkkkkkkkkkkkkkkkkkkkkkkkkkk = 1\nlive",
        )],
        wanted: "unknown heap.kkkkkkkkkkkkkkkkkkkkkkkkkkkkkkkkkkkkkkkkkkkkkkkkkkkkkkkkkkkkkkkkkkkkkkkkkkk",
    },
    Case {
        edits: &[(
            "period",
            "kkkkkkkkkkkkkkkkkkkkkkkkkkkkkkkkkkkkkkkkkkkkkkkkkkkkkkkkkkkkkkkkkkkkkkkkkkkkkkkkkkkkkkkkkkkkkkkkkkkk = 1\nperiod",
        )],
        wanted: "unknown high[0].kkkkkkkkkkkkkkkkkkkkkkkkkkkkkkkkkkkkkkkkkkkkkkkkkkkkkkkkkkkkkkkkkkkkkkkk",
    },
    Case {
        edits: &[(
            "version",
            "\"kkkkkkkkkkkkkkkkkkkkkkkkkkkkkkkkkkkkkkkkkkkkkkkkkkkkkkkkkkkkkkkkkkkkkkkkkkkkkk\u{e9}zz\" = 1\nversion",
        )],
        wanted: "unknown kkkkkkkkkkkkkkkkkkkkkkkkkkkkkkkkkkkkkkkkkkkkkkkkkkkkkkkkkkkkkkkkkkkkkkkkkkkkkk?z",
    },
];

#[test]
fn refuses_the_least_unknown_key(rt: HostRuntime) -> Result<(), Fail> {
    expect_each(&rt, rt.alloc(), LEAST)?;
    Ok(())
}
