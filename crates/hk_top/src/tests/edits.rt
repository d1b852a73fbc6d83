//! The smallest sheet with a part of its text changed: how the run ends, and what is written.
use super::{REPORT, SMALLEST, edited, expect_run};
use hk_io::Status;
use std::alloc::Global;
use std::process::Abort;

/// A part of the smallest sheet, what stands in its place, how the run ends, and what is written.
struct Edit {
    old: &'static str,
    new: &'static str,
    status: Status,
    text: &'static str,
}

/// Runs the smallest sheet with a part changed, and compares how it ends and what it writes.
fn expect_edits(rt: &impl Abort, alloc: Global, edits: &[Edit]) {
    for edit in edits {
        let input = edited(rt, alloc, SMALLEST, edit.old, edit.new);
        expect_run(rt, alloc, input.as_str(), edit.status, edit.text);
    }
}

/// Sheets that are run.
const ANSWERED: &[Edit] = &[
    // The work of a collector's cycle is 37 + 9 * live + 7 * alloc.
    Edit {
        old: "live = 62",
        new: "live = 6",
        status: Status::Done,
        text: "heap work 3675 attempt 0 busy 2 debt 0\nhigh a response 2 deadline 10\nout 1 a 0\ndone a jobs 1 latest 2\ncycles 0 collector 0 idle 8\nend 10\n",
    },
    Edit {
        old: "name = \"a\"",
        new: "name = \"abcdefghij_12345\"",
        status: Status::Done,
        text: "heap work 4179 attempt 0 busy 2 debt 0\nhigh abcdefghij_12345 response 2 deadline 10\nout 1 abcdefghij_12345 0\ndone abcdefghij_12345 jobs 1 latest 2\ncycles 0 collector 0 idle 8\nend 10\n",
    },
    // Other ways to write the same.
    Edit {
        old: "first = 0\nevery = 10",
        new: "arrivals = [0]",
        status: Status::Done,
        text: REPORT,
    },
    // Other statements on variables.
    Edit {
        old: "out v0",
        new: "set v0 1",
        status: Status::Done,
        text: "heap work 4179 attempt 0 busy 2 debt 0\nhigh a response 2 deadline 10\ndone a jobs 1 latest 2\ncycles 0 collector 0 idle 8\nend 10\n",
    },
    Edit {
        old: "work 1\nout v0",
        new: "set v7 18446744073709551615\nout v7",
        status: Status::Done,
        text: "heap work 4179 attempt 0 busy 2 debt 0\nhigh a response 2 deadline 10\nout 1 a 18446744073709551615\ndone a jobs 1 latest 2\ncycles 0 collector 0 idle 8\nend 10\n",
    },
    // A task without jobs in the run.
    Edit {
        old: "first = 0\nevery = 10",
        new: "arrivals = []",
        status: Status::Done,
        text: "heap work 4179 attempt 0 busy 2 debt 0\nhigh a response 2 deadline 10\ndone a jobs 0 latest 0\ncycles 0 collector 0 idle 10\nend 10\n",
    },
];

#[test]
fn runs_edited_sheets(rt: HostRuntime) {
    expect_edits(&rt, rt.alloc(), ANSWERED);
}

/// Keys and values that are refused.
const KEYS: &[Edit] = &[
    // No TOML, a missing key, an unknown one, another kind, and out of range.
    Edit {
        old: "script = \"\"\"",
        new: "script = \"",
        status: Status::Sheet,
        text: "sheet text\n",
    },
    Edit {
        old: "version = 1\n",
        new: "",
        status: Status::Sheet,
        text: "sheet missing version\n",
    },
    Edit {
        old: "ticks = 10\n",
        new: "",
        status: Status::Sheet,
        text: "sheet missing ticks\n",
    },
    Edit {
        old: "every = 10\n",
        new: "",
        status: Status::Sheet,
        text: "sheet missing high[0].every\n",
    },
    Edit {
        old: "ticks = 10",
        new: "ticks = 10\nx = 1",
        status: Status::Sheet,
        text: "sheet unknown x\n",
    },
    Edit {
        old: "ticks = 10",
        new: "ticks = 10\n\"a b\" = 1",
        status: Status::Sheet,
        text: "sheet unknown a?b\n",
    },
    Edit {
        old: "ticks = 10",
        new: "ticks = 10.0",
        status: Status::Sheet,
        text: "sheet kind ticks\n",
    },
    Edit {
        old: "ticks = 10",
        new: "ticks = 0",
        status: Status::Sheet,
        text: "sheet range ticks\n",
    },
    Edit {
        old: "ticks = 10",
        new: "ticks = 16777217",
        status: Status::Sheet,
        text: "sheet range ticks\n",
    },
    Edit {
        old: "live = 62",
        new: "live = 1000001",
        status: Status::Sheet,
        text: "sheet range heap.live\n",
    },
    Edit {
        old: "deadline = 10",
        new: "deadline = 11",
        status: Status::Sheet,
        text: "sheet range high[0].deadline\n",
    },
];

#[test]
fn refuses_keys_and_values(rt: HostRuntime) {
    expect_edits(&rt, rt.alloc(), KEYS);
}

/// Names, arrivals and scripts that are refused.
const NAMES_AND_SCRIPTS: &[Edit] = &[
    // Names and arrivals.
    Edit {
        old: "name = \"a\"",
        new: "name = \"\"",
        status: Status::Sheet,
        text: "sheet name 0\n",
    },
    Edit {
        old: "name = \"a\"",
        new: "name = \"abcdefghij_123456\"",
        status: Status::Sheet,
        text: "sheet name 0\n",
    },
    Edit {
        old: "every = 10",
        new: "every = 9",
        status: Status::Sheet,
        text: "sheet arrivals a 1 0 9\n",
    },
    // Scripts, by the line.
    Edit {
        old: "out v0",
        new: "wait 1",
        status: Status::Sheet,
        text: "sheet script a word 2\n",
    },
    Edit {
        old: "work 1\n",
        new: "work 0\n",
        status: Status::Sheet,
        text: "sheet script a number 1\n",
    },
    Edit {
        old: "out v0",
        new: "clear r0",
        status: Status::Sheet,
        text: "sheet script a register 2\n",
    },
    Edit {
        old: "out v0",
        new: "out v8",
        status: Status::Sheet,
        text: "sheet script a variable 2\n",
    },
    Edit {
        old: "out v0",
        new: "new r1 0 0",
        status: Status::Sheet,
        text: "sheet script a shape 2\n",
    },
    Edit {
        old: "out v0",
        new: "repeat 2",
        status: Status::Sheet,
        text: "sheet script a block 2\n",
    },
    Edit {
        old: "out v0",
        new: "repeat 1\nrepeat 1\nrepeat 1\nrepeat 1\nrepeat 1\nrepeat 1\nrepeat 1\nrepeat 1\nrepeat 1\nrepeat 1\nrepeat 1\nrepeat 1\nrepeat 1\nrepeat 1\nrepeat 1\nrepeat 1\nrepeat 1",
        status: Status::Sheet,
        text: "sheet script a deep 18\n",
    },
    Edit {
        old: "work 1\nout v0",
        new: "# nothing",
        status: Status::Sheet,
        text: "sheet script a empty\n",
    },
];

#[test]
fn refuses_names_and_scripts(rt: HostRuntime) {
    expect_edits(&rt, rt.alloc(), NAMES_AND_SCRIPTS);
}

/// Heaps that are none.
const GEOMETRIES: &[Edit] = &[
    // The geometry: odd, small, large, a reserve above what there is, and a board without fields.
    Edit {
        old: "live = 62",
        new: "live = 63",
        status: Status::Sheet,
        text: "sheet geometry odd\n",
    },
    Edit {
        old: "live = 62",
        new: "live = 4",
        status: Status::Sheet,
        text: "sheet geometry small\n",
    },
    Edit {
        old: "live = 62",
        new: "live = 65538",
        status: Status::Sheet,
        text: "sheet geometry large\n",
    },
    Edit {
        old: "reserve = 129",
        new: "reserve = 513",
        status: Status::Sheet,
        text: "sheet geometry reserve\n",
    },
    Edit {
        old: "[2, 2]",
        new: "[0, 0]",
        status: Status::Sheet,
        text: "sheet geometry board\n",
    },
];

#[test]
fn refuses_geometries(rt: HostRuntime) {
    expect_edits(&rt, rt.alloc(), GEOMETRIES);
}

/// Sheets that aren't admitted, and the neighbour of one that is.
const ADMISSIONS: &[Edit] = &[
    // What isn't admitted. The collector does 11 * (512 - reserve) events before the words outside the reserve are taken.
    Edit {
        old: "cost = 2",
        new: "cost = 1",
        status: Status::NotAdmitted,
        text: "refused cost a need 2 declared 1\n",
    },
    Edit {
        old: "work 1\n",
        new: "repeat 65535\nrepeat 65535\nend\nend\n",
        status: Status::NotAdmitted,
        text: "refused cost a need over declared 2\n",
    },
    Edit {
        old: "cost = 2",
        new: "cost = 11",
        status: Status::NotAdmitted,
        text: "refused response a\n",
    },
    Edit {
        old: "words = 0",
        new: "words = 1",
        status: Status::NotAdmitted,
        text: "refused busy\n",
    },
    Edit {
        old: "reserve = 129",
        new: "reserve = 133",
        status: Status::NotAdmitted,
        text: "refused rate have 4169 need 4179\n",
    },
    // A new object takes 7 ticks, and 3 words here.
    Edit {
        old: "cost = 2\nwords = 0\nfirst = 0\nevery = 10\nscript = \"\"\"\nwork 1\nout v0",
        new: "cost = 8\nwords = 2\nfirst = 0\nevery = 10\nscript = \"\"\"\nwork 1\nnew r1 1 1",
        status: Status::NotAdmitted,
        text: "refused words a need 3 declared 2\n",
    },
];

#[test]
fn refuses_what_is_not_admitted(rt: HostRuntime) {
    expect_edits(&rt, rt.alloc(), ADMISSIONS);
}

/// Statements on the heap in the smallest sheet: no register but the first refers to an object.
const ON_THE_HEAP: &[Edit] = &[
    Edit {
        old: "out v0",
        new: "clear r1",
        status: Status::Done,
        text: "heap work 4179 attempt 0 busy 2 debt 0
high a response 2 deadline 10
done a jobs 1 latest 2
cycles 0 collector 0 idle 8
end 10
",
    },
    Edit {
        old: "work 1\n",
        new: "if null r1\nend\n",
        status: Status::Done,
        text: REPORT,
    },
    Edit {
        old: "work 1\n",
        new: "if same r1 r2\nend\n",
        status: Status::Done,
        text: REPORT,
    },
];

#[test]
fn runs_statements_on_the_heap(rt: HostRuntime) {
    expect_edits(&rt, rt.alloc(), ON_THE_HEAP);
}
