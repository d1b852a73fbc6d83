//! Sheets and their first faults. Each wanted line is worked out from the rules of the sheet.
mod jitter;
mod keys;
mod kinds;
mod printing;
mod ranges;
mod tasks;
mod versions;

ghost use Rattle.hk_sheet.specs.Valid.{IsSheet};

use crate::{HeapKeys, High, Low, Sheet, SheetError, read};
use hk_script::ScriptError;
use hk_words::{GeoError, Geometry};
use std::alloc::{AllocError, Global};
use std::process::Abort;
use std::test::Fail;

/// A sheet with a high task and two low ones.
const SHEET: &str = r#"version = 1
ticks = 100

[heap]
live = 62
alloc = 512
reserve = 129
rate = 11
board = [2, 3]

[[high]]
name = "a"
period = 10
deadline = 9
cost = 8
words = 7
first = 6
every = 11
script = "work 1"

[[low]]
name = "b"
arrivals = [3, 4, 9]
script = "out v0"

[[low]]
name = "c"
first = 0
every = 1
script = "work 2"
"#;

// Its tables.
const HEAP: &str = "[heap]\nlive = 62\nalloc = 512\nreserve = 129\nrate = 11\nboard = [2, 3]\n";

const HIGH: &str =
    "[[high]]\nname = \"a\"\nperiod = 10\ndeadline = 9\ncost = 8\nwords = 7\nfirst = 6\nevery = 11\nscript = \"work 1\"\n";

const LOW: &str = "[[low]]\nname = \"b\"\narrivals = [3, 4, 9]\nscript = \"out v0\"\n";

const LAST: &str = "[[low]]\nname = \"c\"\nfirst = 0\nevery = 1\nscript = \"work 2\"\n";

/// A byte of a text, as an error shows it: all are ASCII.
fn show(alloc: Global, bytes: &[u8]) -> Result<String, AllocError> {
    let mut text = String::new(alloc);
    for byte in bytes {
        text.push(char::from(*byte))?;
    }
    Ok(text)
}

/// What is wrong with a script, as a refusal says it.
fn script_line(alloc: Global, error: ScriptError) -> Result<String, AllocError> {
    match error {
        ScriptError::Word(line) => format!(in alloc; "word {line}"),
        ScriptError::Number(line) => format!(in alloc; "number {line}"),
        ScriptError::Register(line) => format!(in alloc; "register {line}"),
        ScriptError::Variable(line) => format!(in alloc; "variable {line}"),
        ScriptError::Shape(line) => format!(in alloc; "shape {line}"),
        ScriptError::Block(line) => format!(in alloc; "block {line}"),
        ScriptError::Deep(line) => format!(in alloc; "deep {line}"),
        ScriptError::Long => String::from_str(alloc, "long"),
        ScriptError::Empty => String::from_str(alloc, "empty"),
        ScriptError::Memory => String::from_str(alloc, "memory"),
    }
}

/// Why sizes are no geometry, as a refusal says it.
fn geometry_word(error: GeoError) -> &'static str {
    match error {
        GeoError::Odd => "odd",
        GeoError::Small => "small",
        GeoError::Large => "large",
        GeoError::Reserve => "reserve",
        GeoError::Tasks => "tasks",
        GeoError::Board => "board",
        GeoError::Registers => "registers",
    }
}

/// A word with a key or the name of a task behind it.
fn line(alloc: Global, word: &str, bytes: &[u8]) -> Result<String, AllocError> {
    let shown = show(alloc, bytes)?;
    format!(in alloc; "{word} {shown}")
}

/// Arrivals of a task that come too close, as a refusal says it.
fn arrivals_line(
    alloc: Global,
    task: &[u8],
    place: u32,
    earlier: u64,
    later: u64,
) -> Result<String, AllocError> {
    let task = show(alloc, task)?;
    format!(in alloc; "arrivals {task} {place} {earlier} {later}")
}

/// The script of a task that is none, as a refusal says it.
fn task_line(alloc: Global, task: &[u8], error: ScriptError) -> Result<String, AllocError> {
    let task = show(alloc, task)?;
    let error = script_line(alloc, error)?;
    format!(in alloc; "script {task} {error}")
}

/// Why sizes are no geometry, as a whole refusal.
fn geometry_line(alloc: Global, error: GeoError) -> Result<String, AllocError> {
    let word = geometry_word(error);
    format!(in alloc; "geometry {word}")
}

/// A refusal, without its first word.
fn refusal(alloc: Global, error: &SheetError) -> Result<String, AllocError> {
    match error {
        SheetError::Text => String::from_str(alloc, "text"),
        SheetError::Missing(key) => line(alloc, "missing", &key.items),
        SheetError::Unknown(key) => line(alloc, "unknown", &key.items),
        SheetError::Kind(key) => line(alloc, "kind", &key.items),
        SheetError::Range(key) => line(alloc, "range", &key.items),
        SheetError::Name(index) => format!(in alloc; "name {index}"),
        SheetError::Arrivals {
            task,
            place,
            earlier,
            later,
        } => arrivals_line(alloc, &task.items, *place, *earlier, *later),
        SheetError::Script(task, error) => task_line(alloc, &task.items, *error),
        SheetError::Geometry(error) => geometry_line(alloc, *error),
        SheetError::Memory => Err(AllocError),
    }
}

/// The refusal that a text gets, without its first word, and `read` where it is a sheet.
fn answer(alloc: Global, text: &[u8]) -> Result<String, AllocError> {
    match read(alloc, text) {
        Ok(_) => String::from_str(alloc, "read"),
        Err(error) => refusal(alloc, &error),
    }
}

/// The sheet with parts of its text changed, the first ones that are found.
fn edited(rt: &impl Abort, alloc: Global, edits: &[(&str, &str)]) -> Result<String, AllocError> {
    let mut sheet = String::from_str(alloc, SHEET)?;
    for (old, new) in edits {
        let Some((before, after)) = sheet.as_str().split_once(*old) else {
            panic!(rt; "the sheet lacks {old:?}");
        };
        let next = format!(in alloc; "{before}{new}{after}")?;
        sheet = next;
    }
    Ok(sheet)
}

/// Compares the answer to a text with the wanted one.
fn expect(rt: &impl Abort, alloc: Global, text: &[u8], wanted: &str) -> Result<(), AllocError> {
    let found = answer(alloc, text)?;
    assert_eq!(rt; found.as_str(), wanted);
    Ok(())
}

/// A sheet with parts changed, and the answer to it.
struct Case {
    /// Parts of the sheet with what stands in their place.
    edits: &'static [(&'static str, &'static str)],
    wanted: &'static str,
}

/// Compares the answers to edited sheets with the wanted ones.
fn expect_each(rt: &impl Abort, alloc: Global, cases: &[Case]) -> Result<(), AllocError> {
    for case in cases {
        let text = edited(rt, alloc, case.edits)?;
        expect(rt, alloc, text.as_bytes(), case.wanted)?;
    }
    Ok(())
}

/// The sheet, and the same one in other words.
const SAME: &[Case] = &[
    Case {
        edits: &[],
        wanted: "read",
    },
    Case {
        edits: &[("version", "\u{feff}version")],
        wanted: "read",
    },
    Case {
        edits: &[("ticks = 100", "ticks = 0x6_4 # a hundred")],
        wanted: "read",
    },
    Case {
        edits: &[
            ("[heap]\nlive", "heap.live"),
            ("\nalloc", "\nheap.alloc"),
            ("\nreserve", "\nheap.reserve"),
            ("\nrate", "\nheap.rate"),
            ("\nboard", "\nheap.board"),
        ],
        wanted: "read",
    },
    Case {
        edits: &[(
            HEAP,
            "heap = {live = 62, alloc = 512, reserve = 129, rate = 11, board = [2, 3]}\n",
        )],
        wanted: "read",
    },
    Case {
        edits: &[(HIGH, "")],
        wanted: "read",
    },
    Case {
        edits: &[(LOW, ""), (LAST, "")],
        wanted: "read",
    },
    Case {
        edits: &[(HIGH, ""), ("ticks", "high = []\nticks")],
        wanted: "read",
    },
    Case {
        edits: &[
            (LOW, ""),
            (LAST, ""),
            (
                "ticks",
                "low = [{name = 'b', arrivals = [], script = 'work 1'}]\nticks",
            ),
        ],
        wanted: "read",
    },
    Case {
        edits: &[("[3, 4, 9]", "[]")],
        wanted: "read",
    },
];

#[test]
fn reads_other_words(rt: HostRuntime) -> Result<(), Fail> {
    expect_each(&rt, rt.alloc(), SAME)?;
    Ok(())
}

/// No TOML.
const NO_TOML: &[Case] = &[
    Case {
        edits: &[("version = 1", "version =")],
        wanted: "text",
    },
    Case {
        edits: &[("version = 1", "version = 1\nversion = 1")],
        wanted: "text",
    },
    Case {
        edits: &[("ticks = 100", "ticks = 9223372036854775808")],
        wanted: "text",
    },
    Case {
        edits: &[("\"a\"", "\"a")],
        wanted: "text",
    },
];

#[test]
fn refuses_no_toml(rt: HostRuntime) -> Result<(), Fail> {
    expect_each(&rt, rt.alloc(), NO_TOML)?;
    Ok(())
}

#[test]
fn refuses_what_is_not_text(rt: HostRuntime) -> Result<(), Fail> {
    expect(&rt, rt.alloc(), b"version = 1\xff", "text")?;
    expect(&rt, rt.alloc(), b"", "missing version")?;
    Ok(())
}

/// The numbers of the heap of the sheet.
const KEYS: HeapKeys = HeapKeys {
    live: 62,
    alloc: 512,
    reserve: 129,
    rate: 11,
    refs: 2,
    nums: 3,
    registers: 8,
    fields: 62,
};

/// A task is the high one of the sheet.
fn expect_high(rt: &impl Abort, high: &High) {
    let timing = high.timing;
    assert_eq!(rt;
        (
            high.name.items.as_slice(),
            [timing.period, timing.deadline, timing.cost, high.words],
            [high.arrivals.at(0), high.arrivals.at(2)],
            high.script.statements().len()
        ),
        (b"a".as_slice(), [10, 9, 8, 7], [Some(6), Some(28)], 1)
    );
}

/// A task is the first low one of the sheet.
fn expect_low(rt: &impl Abort, low: &Low) {
    assert_eq!(rt;
        (
            low.name.items.as_slice(),
            [low.arrivals.at(2), low.arrivals.at(3)]
        ),
        (b"b".as_slice(), [Some(9), None])
    );
}

/// A geometry is the one of the sheet.
fn expect_geometry(rt: &impl Abort, geometry: Geometry) {
    let board = geometry.board();
    assert_eq!(rt;
        (
            [geometry.live(), geometry.alloc(), geometry.reserve()],
            [geometry.high(), geometry.low()],
            [board.refs(), board.nums()]
        ),
        ([62, 512, 129], [1, 2], [2, 3])
    );
}

/// The values of the sheet.
fn expect_values(rt: &impl Abort, sheet: &Sheet)
    requires { IsSheet sheet.now }
{
    assert_eq!(rt; (sheet.ticks, sheet.heap), (100, KEYS));
    match (sheet.high.items.as_slice(), sheet.low.items.as_slice()) {
        ([high], [low, _]) => {
            expect_high(rt, high);
            expect_low(rt, low);
        }
        _ => panic!(rt; "a high task and two low ones"),
    }
    expect_geometry(rt, sheet.geometry());
}

#[test]
fn reads_each_value(rt: HostRuntime) -> Result<(), Fail> {
    expect_values(&rt, &read(rt.alloc(), SHEET.as_bytes())?);
    Ok(())
}

/// The document's own keys and the heap, for sheets that are built.
const TOP: &str =
    "version = 1\nticks = 100000\n[heap]\nlive = 62\nalloc = 512\nreserve = 129\nrate = 11\nboard = [2, 3]\n";

/// A sheet of so many low tasks, `n0`, `n1` and so on.
fn with_tasks(alloc: Global, kind: &str, count: u64) -> Result<String, AllocError> {
    let mut sheet = String::from_str(alloc, TOP)?;
    for task in 0..count {
        let times = if kind == "high" {
            "period = 10\ndeadline = 9\ncost = 8\nwords = 7\nfirst = 0\nevery = 10\n"
        } else {
            "first = 0\nevery = 1\n"
        };
        let table = format!(in alloc; "[[{kind}]]\nname = 'n{task}'\n{times}script = 'work 1'\n")?;
        sheet.push_str(table.as_str())?;
    }
    Ok(sheet)
}

#[test]
fn counts_tasks(rt: HostRuntime) -> Result<(), Fail> {
    for (kind, count, wanted) in [
        ("low", 31, "read"),
        ("low", 32, "geometry tasks"),
        ("low", 255, "geometry tasks"),
        ("low", 256, "geometry tasks"),
        ("low", 257, "geometry tasks"),
        ("high", 31, "read"),
        ("high", 256, "geometry tasks"),
        ("high", 287, "geometry tasks"),
    ] {
        let text = with_tasks(rt.alloc(), kind, count)?;
        expect(&rt, rt.alloc(), text.as_bytes(), wanted)?;
    }
    Ok(())
}

/// A sheet of so many low tasks, `n0`, `n1` and so on, each with so many arrivals.
fn with_arrivals(alloc: Global, tasks: u64, arrivals: u64) -> Result<String, AllocError> {
    let mut sheet = String::from_str(alloc, TOP)?;
    for task in 0..tasks {
        let table = format!(in alloc;
            "[[low]]\nname = 'n{task}'\nscript = 'work 1'\narrivals = ["
        )?;
        sheet.push_str(table.as_str())?;
        for tick in 0..arrivals {
            let number = format!(in alloc; "{tick}, ")?;
            sheet.push_str(number.as_str())?;
        }
        sheet.push_str("]\n")?;
    }
    Ok(sheet)
}

/// Compares the answer to a low task with so many arrivals with the wanted one.
fn expect_arrivals(
    rt: &impl Abort,
    alloc: Global,
    arrivals: u64,
    wanted: &str,
) -> Result<(), AllocError> {
    let text = with_arrivals(alloc, 1, arrivals)?;
    expect(rt, alloc, text.as_bytes(), wanted)
}

#[test]
fn counts_arrivals(rt: HostRuntime) -> Result<(), Fail> {
    expect_arrivals(&rt, rt.alloc(), 0, "read")?;
    expect_arrivals(&rt, rt.alloc(), 4096, "read")?;
    expect_arrivals(&rt, rt.alloc(), 4097, "range low[0].arrivals")?;
    Ok(())
}

#[test]
fn reads_large_sheets(rt: HostRuntime) -> Result<(), Fail> {
    let text = with_arrivals(rt.alloc(), 31, 4096)?;
    expect(&rt, rt.alloc(), text.as_bytes(), "read")?;
    let text = with_tasks(rt.alloc(), "low", 14_000)?;
    expect(&rt, rt.alloc(), text.as_bytes(), "geometry tasks")?;
    Ok(())
}
