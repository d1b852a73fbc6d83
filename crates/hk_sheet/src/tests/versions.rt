//! The two versions of the sheet. Each wanted line is worked out from the rules of the sheet.
use super::{Case, expect_each};
use std::test::Fail;

/// The version, and which sheets have the key `registers`.
const VERSIONS: &[Case] = &[
    Case {
        edits: &[("version = 1", "version = 3")],
        wanted: "range version",
    },
    Case {
        edits: &[("version = 1", "version = 2.0")],
        wanted: "kind version",
    },
    Case {
        edits: &[("version = 1", "version = \"2\"")],
        wanted: "kind version",
    },
    Case {
        edits: &[
            ("version = 1", "version = 2.0"),
            ("rate", "registers = 8\nrate"),
        ],
        wanted: "kind version",
    },
    Case {
        edits: &[
            ("version = 1", "version = 3"),
            ("rate", "registers = 8\nrate"),
        ],
        wanted: "range version",
    },
    Case {
        edits: &[
            ("version = 1", "version = 2.0"),
            ("ticks", "registers = 8\nticks"),
        ],
        wanted: "unknown registers",
    },
    Case {
        edits: &[("rate", "registers = 8\nrate")],
        wanted: "unknown heap.registers",
    },
    Case {
        edits: &[("live = 62", "registers = 8")],
        wanted: "unknown heap.registers",
    },
    Case {
        edits: &[("version = 1", "version = 2")],
        wanted: "missing heap.registers",
    },
    Case {
        edits: &[("version = 1", "version = 2"), ("board = [2, 3]", "x = 1")],
        wanted: "unknown heap.x",
    },
    Case {
        edits: &[("version = 1", "version = 2"), ("board = [2, 3]\n", "")],
        wanted: "missing heap.board",
    },
];

#[test]
fn refuses_versions(rt: HostRuntime) -> Result<(), Fail> {
    expect_each(&rt, rt.alloc(), VERSIONS)?;
    Ok(())
}

/// The registers of a task, in version 2.
const REGISTERS: &[Case] = &[
    Case {
        edits: &[
            ("version = 1", "version = 2"),
            ("rate", "registers = 1\nrate"),
        ],
        wanted: "range heap.registers",
    },
    Case {
        edits: &[
            ("version = 1", "version = 2"),
            ("rate", "registers = 2\nrate"),
        ],
        wanted: "read",
    },
    Case {
        edits: &[
            ("version = 1", "version = 0x2"),
            ("rate", "registers = 32\nrate"),
        ],
        wanted: "read",
    },
    Case {
        edits: &[
            ("version = 1", "version = 2"),
            ("rate", "registers = 33\nrate"),
        ],
        wanted: "range heap.registers",
    },
    Case {
        edits: &[
            ("version = 1", "version = 2"),
            ("rate", "registers = -8\nrate"),
        ],
        wanted: "range heap.registers",
    },
    Case {
        edits: &[
            ("version = 1", "version = 2"),
            ("rate", "registers = 8.0\nrate"),
        ],
        wanted: "kind heap.registers",
    },
    Case {
        edits: &[
            ("version = 1", "version = 2"),
            ("rate", "registers = 33\nrate"),
            ("[2, 3]", "[2, 256]"),
        ],
        wanted: "range heap.board",
    },
    Case {
        edits: &[
            ("version = 1", "version = 2"),
            ("rate", "registers = 33\nrate"),
            ("cost = 8", "cost = 0"),
        ],
        wanted: "range heap.registers",
    },
];

#[test]
fn refuses_registers(rt: HostRuntime) -> Result<(), Fail> {
    expect_each(&rt, rt.alloc(), REGISTERS)?;
    Ok(())
}

/// The most fields of the board: 62 in version 1, 254 in version 2.
const BOARDS: &[Case] = &[
    Case {
        edits: &[("[2, 3]", "[31, 32]"), ("live = 62", "live = 64")],
        wanted: "geometry board",
    },
    Case {
        edits: &[
            ("version = 1", "version = 2"),
            ("rate", "registers = 2\nrate"),
            ("[2, 3]", "[31, 32]"),
            ("live = 62", "live = 64"),
        ],
        wanted: "read",
    },
    Case {
        edits: &[
            ("version = 1", "version = 2"),
            ("rate", "registers = 2\nrate"),
            ("[2, 3]", "[200, 54]"),
            ("live = 62", "live = 256"),
        ],
        wanted: "read",
    },
    Case {
        edits: &[
            ("version = 1", "version = 2"),
            ("rate", "registers = 2\nrate"),
            ("[2, 3]", "[200, 55]"),
            ("live = 62", "live = 256"),
        ],
        wanted: "geometry board",
    },
    Case {
        edits: &[
            ("version = 1", "version = 2"),
            ("rate", "registers = 2\nrate"),
            ("[2, 3]", "[200, 54]"),
            ("live = 62", "live = 254"),
        ],
        wanted: "geometry small",
    },
];

#[test]
fn refuses_boards(rt: HostRuntime) -> Result<(), Fail> {
    expect_each(&rt, rt.alloc(), BOARDS)?;
    Ok(())
}

/// The fields and registers that a script may name.
const SCRIPTS: &[Case] = &[
    Case {
        edits: &[("work 1", "new r31 0 254")],
        wanted: "script a register 1",
    },
    Case {
        edits: &[("work 1", "new r1 0 254")],
        wanted: "script a shape 1",
    },
    Case {
        edits: &[("work 1", "get v0 r0 62")],
        wanted: "script a number 1",
    },
    Case {
        edits: &[
            ("version = 1", "version = 2"),
            ("rate", "registers = 32\nrate"),
            ("work 1", "new r31 0 254"),
        ],
        wanted: "read",
    },
    Case {
        edits: &[
            ("version = 1", "version = 2"),
            ("rate", "registers = 31\nrate"),
            ("work 1", "new r31 0 254"),
        ],
        wanted: "script a register 1",
    },
    Case {
        edits: &[
            ("version = 1", "version = 2"),
            ("rate", "registers = 32\nrate"),
            ("work 1", "new r31 0 255"),
        ],
        wanted: "script a shape 1",
    },
    Case {
        edits: &[
            ("version = 1", "version = 2"),
            ("rate", "registers = 2\nrate"),
            ("work 1", "get v0 r1 253"),
        ],
        wanted: "read",
    },
    Case {
        edits: &[
            ("version = 1", "version = 2"),
            ("rate", "registers = 2\nrate"),
            ("work 1", "get v0 r1 254"),
        ],
        wanted: "script a number 1",
    },
    Case {
        edits: &[
            ("version = 1", "version = 2"),
            ("rate", "registers = 2\nrate"),
            ("work 2", "clear r2"),
        ],
        wanted: "script c register 1",
    },
];

#[test]
fn refuses_scripts(rt: HostRuntime) -> Result<(), Fail> {
    expect_each(&rt, rt.alloc(), SCRIPTS)?;
    Ok(())
}
