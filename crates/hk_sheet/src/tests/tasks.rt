//! Names, arrivals, scripts and the geometry. Each wanted line is worked out from the rules of the sheet.
use super::{Case, HIGH, LAST, LOW, expect_each};
use std::test::Fail;

/// Names.
const NAMES: &[Case] = &[
    Case {
        edits: &[("\"a\"", "\"\"")],
        wanted: "name 0",
    },
    Case {
        edits: &[("\"a\"", "\"A\"")],
        wanted: "name 0",
    },
    Case {
        edits: &[("\"a\"", "\"1a\"")],
        wanted: "name 0",
    },
    Case {
        edits: &[("\"a\"", "\"_a\"")],
        wanted: "name 0",
    },
    Case {
        edits: &[("\"a\"", "\"a-b\"")],
        wanted: "name 0",
    },
    Case {
        edits: &[("\"a\"", "\"a b\"")],
        wanted: "name 0",
    },
    Case {
        edits: &[("\"a\"", "\"aB\"")],
        wanted: "name 0",
    },
    Case {
        edits: &[("\"a\"", "\"\u{e9}\"")],
        wanted: "name 0",
    },
    Case {
        edits: &[("\"a\"", "\"abcdefghijklmno_p\"")],
        wanted: "name 0",
    },
    Case {
        edits: &[("\"a\"", "\"abcdefghijklmno_\"")],
        wanted: "read",
    },
    Case {
        edits: &[("\"a\"", "\"a_9\"")],
        wanted: "read",
    },
    Case {
        edits: &[("\"a\"", "\"z\"")],
        wanted: "read",
    },
    Case {
        edits: &[("\"a\"", "\"b\"")],
        wanted: "name 1",
    },
    Case {
        edits: &[("\"a\"", "\"c\"")],
        wanted: "name 2",
    },
    Case {
        edits: &[("\"c\"", "\"b\"")],
        wanted: "name 2",
    },
    Case {
        edits: &[("\"b\"", "\"B\""), ("\"c\"", "\"a\"")],
        wanted: "name 1",
    },
    Case {
        edits: &[("\"a\"", "\"\""), ("\"c\"", "\"b\"")],
        wanted: "name 0",
    },
];

#[test]
fn refuses_names(rt: HostRuntime) -> Result<(), Fail> {
    expect_each(&rt, rt.alloc(), NAMES)?;
    Ok(())
}

/// Arrivals.
const ARRIVALS: &[Case] = &[
    Case {
        edits: &[("every = 11", "every = 9")],
        wanted: "arrivals a 1 6 15",
    },
    Case {
        edits: &[
            ("first = 6", "first = 16777216"),
            ("every = 11", "every = 1"),
        ],
        wanted: "arrivals a 1 16777216 16777217",
    },
    Case {
        edits: &[("[3, 4, 9]", "[3, 3, 9]")],
        wanted: "arrivals b 1 3 3",
    },
    Case {
        edits: &[("[3, 4, 9]", "[3, 4, 0]")],
        wanted: "arrivals b 2 4 0",
    },
    Case {
        edits: &[("[3, 4, 9]", "[9, 4, 3]")],
        wanted: "arrivals b 1 9 4",
    },
    Case {
        edits: &[("first = 6\nevery = 11", "arrivals = [0, 10, 20]")],
        wanted: "read",
    },
    Case {
        edits: &[("first = 6\nevery = 11", "arrivals = [0, 9, 20]")],
        wanted: "arrivals a 1 0 9",
    },
    Case {
        edits: &[("first = 6\nevery = 11", "arrivals = [0, 10, 19]")],
        wanted: "arrivals a 2 10 19",
    },
    Case {
        edits: &[("every = 11", "every = 9"), ("[3, 4, 9]", "[3, 3]")],
        wanted: "arrivals a 1 6 15",
    },
    Case {
        edits: &[("\"c\"", "\"a\""), ("every = 11", "every = 9")],
        wanted: "name 2",
    },
    Case {
        edits: &[("[3, 4, 9]", "[3, 3, 9]"), ("work 1", "work 0")],
        wanted: "arrivals b 1 3 3",
    },
];

#[test]
fn refuses_arrivals(rt: HostRuntime) -> Result<(), Fail> {
    expect_each(&rt, rt.alloc(), ARRIVALS)?;
    Ok(())
}

/// Scripts.
const SCRIPTS: &[Case] = &[
    Case {
        edits: &[("work 1", "work")],
        wanted: "script a word 1",
    },
    Case {
        edits: &[("work 1", "work 0")],
        wanted: "script a number 1",
    },
    Case {
        edits: &[("\"work 1\"", "\"work 1\\n\\nx\"")],
        wanted: "script a word 3",
    },
    Case {
        edits: &[("work 1", "clear r0")],
        wanted: "script a register 1",
    },
    Case {
        edits: &[("work 1", "out v8")],
        wanted: "script a variable 1",
    },
    Case {
        edits: &[("work 1", "new r1 40 40")],
        wanted: "script a shape 1",
    },
    Case {
        edits: &[("\"work 1\"", "\"work 1\\nend\"")],
        wanted: "script a block 2",
    },
    Case {
        edits: &[("work 1", "# nothing")],
        wanted: "script a empty",
    },
    Case {
        edits: &[("out v0", "out r0"), ("work 2", "work 0")],
        wanted: "script b variable 1",
    },
    Case {
        edits: &[("work 1", "work 0"), ("out v0", "out r0")],
        wanted: "script a number 1",
    },
    Case {
        edits: &[("work 2", "work 65536")],
        wanted: "script c number 1",
    },
    Case {
        edits: &[("work 2", "work 65536"), ("live = 62", "live = 61")],
        wanted: "script c number 1",
    },
];

#[test]
fn refuses_scripts(rt: HostRuntime) -> Result<(), Fail> {
    expect_each(&rt, rt.alloc(), SCRIPTS)?;
    Ok(())
}

/// The geometry.
const GEOMETRIES: &[Case] = &[
    Case {
        edits: &[("live = 62", "live = 61")],
        wanted: "geometry odd",
    },
    Case {
        edits: &[("alloc = 512", "alloc = 513")],
        wanted: "geometry odd",
    },
    Case {
        edits: &[("live = 62", "live = 4"), ("alloc = 512", "alloc = 513")],
        wanted: "geometry odd",
    },
    Case {
        edits: &[("live = 62", "live = 4")],
        wanted: "geometry small",
    },
    Case {
        edits: &[("live = 62", "live = 0")],
        wanted: "geometry small",
    },
    Case {
        edits: &[("alloc = 512", "alloc = 14")],
        wanted: "geometry small",
    },
    Case {
        edits: &[("live = 62", "live = 6")],
        wanted: "read",
    },
    Case {
        edits: &[("live = 62", "live = 65538")],
        wanted: "geometry large",
    },
    Case {
        edits: &[("alloc = 512", "alloc = 1000000")],
        wanted: "geometry large",
    },
    Case {
        edits: &[
            ("live = 62", "live = 65536"),
            ("alloc = 512", "alloc = 65536"),
        ],
        wanted: "read",
    },
    Case {
        edits: &[("reserve = 129", "reserve = 513")],
        wanted: "geometry reserve",
    },
    Case {
        edits: &[("reserve = 129", "reserve = 1000000")],
        wanted: "geometry reserve",
    },
    Case {
        edits: &[("reserve = 129", "reserve = 512")],
        wanted: "read",
    },
    Case {
        edits: &[(HIGH, ""), (LOW, ""), (LAST, "")],
        wanted: "geometry tasks",
    },
    Case {
        edits: &[("[2, 3]", "[0, 0]")],
        wanted: "geometry board",
    },
    Case {
        edits: &[("[2, 3]", "[62, 1]"), ("live = 62", "live = 64")],
        wanted: "geometry board",
    },
    Case {
        edits: &[("[2, 3]", "[31, 31]"), ("live = 62", "live = 64")],
        wanted: "read",
    },
];

#[test]
fn refuses_geometries(rt: HostRuntime) -> Result<(), Fail> {
    expect_each(&rt, rt.alloc(), GEOMETRIES)?;
    Ok(())
}
