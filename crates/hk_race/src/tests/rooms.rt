//! Races that run short of words, or would without the collector.
ghost use Rattle.std.specs.Prelude.{IfOk};
ghost use Rattle.hk_sheet.specs.Faults.{sizes_of};
ghost use Rattle.hk_sheet.specs.Valid.{IsSheet};
ghost use Rattle.hk_table.specs.Ends.{Opens};
ghost use Rattle.hk_words.specs.Geometry.{HasSizes};

use super::{expect, expect_edited, run};
use crate::{Open, Raced, compete, first_long};
use hk_io::Status;
use hk_sheet::{Sheet, read};
use hk_table::{Heap, Keeper, Pass};
use std::alloc::{AllocError, Global};
use std::process::Abort;
use std::sync::Wait;
use std::test::Fail;
use std::thread::Threads;

/// A job goes through a null register, and then one through a field that the board hasn't; each ends there.
const FAULTS: &str = r#"version = 1
ticks = 2
heap = { live = 62, alloc = 512, reserve = 129, rate = 11, board = [2, 2] }

[[low]]
name = "b"
arrivals = [0, 1]
script = """
job v0
set v1 1
if v0 < v1
get v2 r1 0
else
get v2 r0 2
end
out v2
"""
"#;

/// The sheet of a text.
fn sheet_of(alloc: Global, text: &str) -> Result<Sheet, &'static str>
    ensures { IfOk result IsSheet }
{
    match read(alloc, text.as_bytes()) {
        Ok(sheet) => Ok(sheet),
        Err(_) => Err("no sheet"),
    }
}

/// The heap of a sheet, with its passes and its keeper.
fn opened(alloc: Global, sheet: &Sheet) -> Result<(Heap, Vec<Pass>, Keeper), &'static str>
    requires { IsSheet sheet.now }
    ensures sizes { IfOk result (λ r. HasSizes r.0.geometry (sizes_of sheet.now)) }
    ensures open { IfOk result (λ r. Opens r.0.geometry r.0 r.1.items r.2) }
{
    match Heap::open(alloc, sheet.geometry()) {
        Ok(parts) => Ok(parts),
        Err(_) => Err("no memory"),
    }
}

/// The race of a sheet.
fn raced<R: Abort + Threads + Wait + Sync>(
    rt: &R,
    alloc: Global,
    text: &str,
) -> Result<Raced, Fail> {
    let sheet = sheet_of(alloc, text)?;
    let None = first_long(&sheet) else {
        panic!(rt; "a long task");
    };
    let (heap, passes, keeper) = opened(alloc, &sheet)?;
    let raced = compete(rt, alloc, &sheet, heap, passes, keeper, &Open).or(Err("no memory"))?;
    Ok(raced)
}

#[test]
fn faults_end_their_jobs(rt: HostRuntime) -> Result<(), Fail> {
    let raced = raced(&rt, rt.alloc(), FAULTS)?;
    let text = b"fault b 0 4 nil\nfault b 1 6 field\ndone b jobs 2\nend\n";
    assert_eq!(&rt;
        (raced.text.as_slice(), raced.full, raced.live),
        (text.as_slice(), false, None)
    );
    Ok(())
}

/// More words are made than there are, and more live than is declared.
const TOO_MANY: &str = r#"version = 1
ticks = 1
heap = { live = 2, alloc = 16, reserve = 0, rate = 1, board = [1, 0] }

[[high]]
name = "a"
period = 1000
deadline = 1000
cost = 1000
words = 82
arrivals = [0]
script = """
new r1 1 0
repeat 40
new r2 1 0
end
"""
"#;

/// What that may come to: the collector finds the board and an object or two live, if it looks at them at all.
const TEXTS_OF_TOO_MANY: &[&str] = &[
    "full a 16\nend\n",
    "full a 16\nlive 4 above 2\nend\n",
    "full a 16\nlive 6 above 2\nend\n",
];

#[test]
fn a_full_heap_stops_its_task(rt: HostRuntime) -> Result<(), Fail> {
    let ended = run(&rt, rt.alloc(), &[], TOO_MANY, (&[], &[]), 65536, &Open)?;
    let found = ended.sink.bytes();
    assert_eq!(&rt; ended.end.status, Status::Full);
    assert!(&rt;
        TEXTS_OF_TOO_MANY
            .iter()
            .any(|text| text.as_bytes() == found)
    );
    Ok(())
}

/// A task makes 500 objects of 4 words and keeps the last one.
const MAKER: &str = r#"
[[low]]
name = "NAME"
first = 0
every = 1
script = """
repeat 500
new r1 1 2
end
"""
"#;

/// Adds such a task of this name.
fn push_maker(sheet: &mut String, name: &str) -> Result<(), AllocError> {
    let Some((before, after)) = MAKER.split_once("NAME") else {
        return Err(AllocError);
    };
    sheet.push_str(before)?;
    sheet.push_str(name)?;
    sheet.push_str(after)?;
    Ok(())
}

/// Four such tasks on a heap for as many words as 144 objects have.
fn makers(alloc: Global) -> Result<String, AllocError> {
    let mut sheet = String::from_str(
        alloc,
        "version = 1\nticks = 1\nheap = { live = 62, alloc = 640, reserve = 64, rate = 11, board = [2, 2] }\n",
    )?;
    for name in ["a", "b", "c", "d"] {
        push_maker(&mut sheet, name)?;
    }
    Ok(sheet)
}

/// Together they make more than twelve times as many words as there are.
#[test]
fn workers_wait_for_room(rt: HostRuntime) -> Result<(), Fail> {
    let sheet = makers(rt.alloc())?;
    let text = "done a jobs 1\ndone b jobs 1\ndone c jobs 1\ndone d jobs 1\nend\n";
    expect(&rt, rt.alloc(), sheet.as_str(), Status::Done, text)?;
    Ok(())
}

/// A task, without its script, that has 64 jobs.
const LONGEST: &str = r#"version = 1
ticks = 64
heap = { live = 62, alloc = 512, reserve = 129, rate = 11, board = [2, 2] }

[[low]]
name = "b"
first = 0
every = 1
script = """
"#;

/// The task with a script that costs 2^24 ticks, which is 256 * 65535 + 256.
fn longest(alloc: Global) -> Result<String, AllocError> {
    let mut sheet = String::from_str(alloc, LONGEST)?;
    for _ in 0..256_u32 {
        sheet.push_str("work 65535\n")?;
    }
    sheet.push_str("work 256\n\"\"\"\n")?;
    Ok(sheet)
}

/// The jobs cost 2^30 ticks together, as many as a pass may begin calls. One more is too many.
#[test]
fn the_longest_task_is_not_long(rt: HostRuntime) -> Result<(), Fail> {
    let sheet = longest(rt.alloc())?;
    let text = "done b jobs 64\nend\n";
    expect(&rt, rt.alloc(), sheet.as_str(), Status::Done, text)?;
    let change = ("ticks = 64", "ticks = 65");
    let line = "sheet task b long\n";
    expect_edited(&rt, rt.alloc(), sheet.as_str(), change, Status::Sheet, line)?;
    Ok(())
}
