//! What is refused before a race.
use super::{TWO, expect, expect_edited, expect_end, run};
use crate::Open;
use hk_io::Status;
use std::alloc::{AllocError, Global};
use std::process::Abort;
use std::sync::Wait;
use std::test::Fail;
use std::thread::Threads;

/// Words of any kind.
const WORDS: &[&[&str]] = &[&["x"], &[""], &["run"], &["a", "b"]];

/// Compares how the program ends for words, what it writes, and that nothing is read: each call of the source would fail.
fn expect_unread<R: Abort + Threads + Wait + Sync>(
    rt: &R,
    alloc: Global,
    words: &[&str],
    fails: &[u64],
    status: Status,
    text: &str,
) -> Result<(), AllocError> {
    let ended = run(rt, alloc, words, TWO, (&[0], fails), 100, &Open)?;
    expect_end(rt, &ended, status, text);
    assert_eq!(rt; ended.source.calls(), 0);
    Ok(())
}

#[test]
fn refuses_words_before_it_reads(rt: HostRuntime) -> Result<(), Fail> {
    let usage = "usage: henri_race\n";
    for words in WORDS {
        expect_unread(&rt, rt.alloc(), words, &[], Status::Usage, usage)?;
    }
    expect_unread(&rt, rt.alloc(), &["x"], &[0], Status::WriteFault, "")?;
    Ok(())
}

/// A part of the sheet of two tasks, what stands in its place, and the line that is written.
struct Edit {
    old: &'static str,
    new: &'static str,
    line: &'static str,
}

/// One of each kind.
const EDITS: &[Edit] = &[
    Edit {
        old: "version = 1",
        new: "version",
        line: "sheet text\n",
    },
    Edit {
        old: "ticks = 1\n",
        new: "",
        line: "sheet missing ticks\n",
    },
    Edit {
        old: "ticks = 1",
        new: "ticks = 1\nx = 1",
        line: "sheet unknown x\n",
    },
    Edit {
        old: "ticks = 1",
        new: "ticks = 1.0",
        line: "sheet kind ticks\n",
    },
    Edit {
        old: "ticks = 1",
        new: "ticks = 0",
        line: "sheet range ticks\n",
    },
    Edit {
        old: "name = \"b\"",
        new: "name = \"a\"",
        line: "sheet name 1\n",
    },
    Edit {
        old: "every = 10",
        new: "every = 9",
        line: "sheet arrivals a 1 0 9\n",
    },
    Edit {
        old: "out v0",
        new: "wait 1",
        line: "sheet script a word 2\n",
    },
    Edit {
        old: "out v0",
        new: "work 0",
        line: "sheet script a number 2\n",
    },
    Edit {
        old: "out v0",
        new: "clear r0",
        line: "sheet script a register 2\n",
    },
    Edit {
        old: "out v1",
        new: "out v8",
        line: "sheet script b variable 4\n",
    },
    Edit {
        old: "out v0",
        new: "new r1 0 0",
        line: "sheet script a shape 2\n",
    },
    Edit {
        old: "out v0",
        new: "repeat 2",
        line: "sheet script a block 2\n",
    },
    Edit {
        old: "out v0",
        new: "repeat 1\nrepeat 1\nrepeat 1\nrepeat 1\nrepeat 1\nrepeat 1\nrepeat 1\nrepeat 1\nrepeat 1\nrepeat 1\nrepeat 1\nrepeat 1\nrepeat 1\nrepeat 1\nrepeat 1\nrepeat 1\nrepeat 1",
        line: "sheet script a deep 18\n",
    },
    Edit {
        old: "get v0 r0 0\nout v0",
        new: "# nothing",
        line: "sheet script a empty\n",
    },
    Edit {
        old: "live = 62",
        new: "live = 63",
        line: "sheet geometry odd\n",
    },
    Edit {
        old: "live = 62",
        new: "live = 4",
        line: "sheet geometry small\n",
    },
    Edit {
        old: "live = 62",
        new: "live = 65538",
        line: "sheet geometry large\n",
    },
    Edit {
        old: "reserve = 129",
        new: "reserve = 513",
        line: "sheet geometry reserve\n",
    },
    Edit {
        old: "[2, 2]",
        new: "[0, 0]",
        line: "sheet geometry board\n",
    },
    // The cost of the script is above 2^24 ticks.
    Edit {
        old: "out v0",
        new: "repeat 65535\nrepeat 65535\nend\nend",
        line: "sheet task a long\n",
    },
    // So it is where the task has no job.
    Edit {
        old: "first = 0\nevery = 10\nscript = \"\"\"\nset v0 5",
        new: "arrivals = []\nscript = \"\"\"\nrepeat 65535\nrepeat 65535\nend\nend\nset v0 5",
        line: "sheet task b long\n",
    },
];

#[test]
fn refuses_what_is_no_sheet(rt: HostRuntime) -> Result<(), Fail> {
    for edit in EDITS {
        let change = (edit.old, edit.new);
        expect_edited(&rt, rt.alloc(), TWO, change, Status::Sheet, edit.line)?;
    }
    Ok(())
}

/// A script of more statements than there may be, 1,024.
fn long_script(alloc: Global) -> Result<String, AllocError> {
    let mut script = String::new(alloc);
    for _ in 0..1025_u32 {
        script.push_str("out v0\n")?;
    }
    Ok(script)
}

#[test]
fn refuses_long_scripts(rt: HostRuntime) -> Result<(), Fail> {
    let script = long_script(rt.alloc())?;
    let change = ("out v0\n", script.as_str());
    let line = "sheet script a long\n";
    expect_edited(&rt, rt.alloc(), TWO, change, Status::Sheet, line)?;
    Ok(())
}

/// 2^24 jobs of 65 ticks cost more than 2^30.
const LONG: &str = r#"version = 1
ticks = 16777216
heap = { live = 62, alloc = 512, reserve = 129, rate = 11, board = [2, 2] }

[[high]]
name = "a"
period = 10
deadline = 10
cost = 2
words = 0
first = 0
every = 10
script = """
work 1
out v0
"""

[[low]]
name = "b"
first = 0
every = 1
script = "work 65"
"#;

#[test]
fn refuses_long_tasks(rt: HostRuntime) -> Result<(), Fail> {
    expect(&rt, rt.alloc(), LONG, Status::Sheet, "sheet task b long\n")?;
    Ok(())
}
