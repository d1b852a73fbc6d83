//! Sheets that are built, printed and looked at as TOML documents.

ghost use Rattle.std.specs.Prelude.{◌≡◌, codes, IfOk};
ghost use Rattle.hk_script.specs.Limits.{AreLimits, limits_of};
ghost use Rattle.hk_sheet.specs.Valid.{IsHigh, IsLow, IsSheet};

use super::KEYS;
use crate::{Arrivals, HeapKeys, High, Highs, Low, Lows, Name, Sheet, Ticks, read, text};
use hk_rta::Timing;
use std::alloc::{AllocError, Global};
use std::process::Abort;
use std::test::Fail;
use toml::{Table, Value};

/// The heap of a sheet of version 2.
const WIDE: HeapKeys = HeapKeys {
    live: 256,
    alloc: 512,
    reserve: 129,
    rate: 11,
    refs: 200,
    nums: 54,
    registers: 32,
    fields: 254,
};

/// A name.
fn name(alloc: Global, text: &str) -> Result<Name, AllocError>
    ensures { IfOk result (λ name. name ≡ text.now) }
{
    let items = Vec::from_slice(alloc, text.as_bytes())?;
    Ok(Name { items })
}

/// A periodic high task.
fn periodic(alloc: Global, heap: HeapKeys) -> Result<High, Fail>
    requires { AreLimits (limits_of heap.fields heap.registers) }
    ensures { IfOk result (λ task. IsHigh 40 heap task × (task.name ≡ codes "pump")) }
{
    Ok(High {
        name: name(alloc, "pump")?,
        timing: Timing {
            cost: 2,
            period: 10,
            deadline: 9,
            jitter: 8,
        },
        words: 7,
        lag: 5,
        arrivals: Arrivals::Every { first: 3, step: 12 },
        script: hk_script::parse_in(
            alloc,
            b"work 1\n  out   v0 # a comment\n",
            heap.fields,
            heap.registers,
        )?,
    })
}

/// A low task with two arrivals.
fn listed(alloc: Global, heap: HeapKeys) -> Result<Low, Fail>
    requires { AreLimits (limits_of heap.fields heap.registers) }
    ensures { IfOk result (λ task. IsLow 40 heap task × (task.name ≡ codes "log_2")) }
{
    Ok(Low {
        name: name(alloc, "log_2")?,
        arrivals: Arrivals::List(Ticks {
            items: Vec::from_slice(alloc, &[0, 39])?,
        }),
        script: hk_script::parse_in(alloc, b"set v1 5\nwork 2", heap.fields, heap.registers)?,
    })
}

/// A sheet with a task of each kind.
fn both(alloc: Global) -> Result<Sheet, Fail>
    ensures { IfOk result IsSheet }
{
    let mut high = Vec::new(alloc);
    high.push(periodic(alloc, KEYS)?)?;
    let mut low = Vec::new(alloc);
    low.push(listed(alloc, KEYS)?)?;
    Ok(Sheet {
        ticks: 40,
        heap: KEYS,
        high: Highs { items: high },
        low: Lows { items: low },
    })
}

/// A sheet of version 2 with a high task.
fn wide(alloc: Global) -> Result<Sheet, Fail>
    ensures { IfOk result IsSheet }
{
    let mut high = Vec::new(alloc);
    high.push(periodic(alloc, WIDE)?)?;
    Ok(Sheet {
        ticks: 40,
        heap: WIDE,
        high: Highs { items: high },
        low: Lows {
            items: Vec::new(alloc),
        },
    })
}

/// The value at a key is this number.
fn expect_number(rt: &impl Abort, table: &Table, key: &str, want: i64) {
    assert_eq!(rt;
        table.get(key).and_then(Value::as_integer),
        Some(want),
        "at {key}"
    );
}

/// The value at a key is this text.
fn expect_text(rt: &impl Abort, table: &Table, key: &str, want: &str) {
    assert_eq!(rt;
        table.get(key).and_then(Value::as_str),
        Some(want),
        "at {key}"
    );
}

/// The value at a key is an array of these two numbers.
fn expect_pair(rt: &impl Abort, table: &Table, key: &str, want: [i64; 2]) {
    let items = match table.get(key).and_then(Value::as_array) {
        Some(items) => items.as_slice(),
        None => &[],
    };
    let pair = match items {
        [first, second] => Some([first.as_integer(), second.as_integer()]),
        _ => None,
    };
    assert_eq!(rt; pair, Some([Some(want[0]), Some(want[1])]), "at {key}");
}

/// The table has so many keys.
fn expect_keys(rt: &impl Abort, table: &Table, want: usize) {
    assert_eq!(rt; table.len(), want);
}

/// The only table of an array at a key.
fn only_table<'a>(table: &'a Table, key: &str) -> Option<&'a Table> {
    let [only] = table.get(key)?.as_array()?.as_slice() else {
        return None;
    };
    only.as_table()
}

/// The document that is printed of a sheet.
fn printed(alloc: Global, sheet: &Sheet) -> Result<Table, Fail>
    requires { IsSheet sheet.now }
{
    let bytes = text(alloc, sheet).map_err(|_| "memory")?;
    Ok(toml::table_from_slice(alloc, &bytes)?)
}

/// The table of the heap.
fn heap_in(document: &Table) -> Option<&Table> {
    document.get("heap")?.as_table()
}

/// The document of a sheet with a task of each kind.
fn expect_both(rt: &impl Abort, document: &Table) -> Result<(), Fail> {
    expect_keys(rt, document, 5);
    expect_number(rt, document, "version", 1);
    expect_number(rt, document, "ticks", 40);
    let heap = heap_in(document).ok_or("a heap")?;
    expect_keys(rt, heap, 5);
    expect_number(rt, heap, "live", 62);
    expect_number(rt, heap, "alloc", 512);
    expect_number(rt, heap, "reserve", 129);
    expect_number(rt, heap, "rate", 11);
    expect_pair(rt, heap, "board", [2, 3]);
    let high = only_table(document, "high").ok_or("a high task")?;
    expect_keys(rt, high, 10);
    expect_text(rt, high, "name", "pump");
    expect_number(rt, high, "period", 10);
    expect_number(rt, high, "deadline", 9);
    expect_number(rt, high, "cost", 2);
    expect_number(rt, high, "words", 7);
    expect_number(rt, high, "jitter", 8);
    expect_number(rt, high, "lag", 5);
    expect_number(rt, high, "first", 3);
    expect_number(rt, high, "every", 12);
    expect_text(rt, high, "script", "work 1\nout v0\n");
    let low = only_table(document, "low").ok_or("a low task")?;
    expect_keys(rt, low, 3);
    expect_text(rt, low, "name", "log_2");
    expect_pair(rt, low, "arrivals", [0, 39]);
    expect_text(rt, low, "script", "set v1 5\nwork 2\n");
    Ok(())
}

#[test]
fn prints_both_kinds(rt: HostRuntime) -> Result<(), Fail> {
    let alloc = rt.alloc();
    let sheet = both(alloc)?;
    expect_both(&rt, &printed(alloc, &sheet)?)
}

/// A sheet with one low task, which is periodic, and no high one.
fn alone(alloc: Global) -> Result<Sheet, Fail>
    ensures { IfOk result IsSheet }
{
    let mut low = Vec::new(alloc);
    low.push(Low {
        name: name(alloc, "z")?,
        arrivals: Arrivals::Every { first: 0, step: 1 },
        script: hk_script::parse(alloc, b"job v3")?,
    })?;
    Ok(Sheet {
        ticks: 16_777_216,
        heap: KEYS,
        high: Highs {
            items: Vec::new(alloc),
        },
        low: Lows { items: low },
    })
}

/// The document of a sheet with one low task.
fn expect_alone(rt: &impl Abort, document: &Table) -> Result<(), Fail> {
    expect_number(rt, document, "ticks", 16_777_216);
    let high = document.get("high").and_then(Value::as_array);
    assert!(rt; high.ok_or("high tasks")?.is_empty());
    let low = only_table(document, "low").ok_or("a low task")?;
    expect_keys(rt, low, 4);
    expect_text(rt, low, "name", "z");
    expect_number(rt, low, "first", 0);
    expect_number(rt, low, "every", 1);
    expect_text(rt, low, "script", "job v3\n");
    Ok(())
}

#[test]
fn prints_a_low_task_alone(rt: HostRuntime) -> Result<(), Fail> {
    let alloc = rt.alloc();
    let sheet = alone(alloc)?;
    expect_alone(&rt, &printed(alloc, &sheet)?)
}

/// The document of a sheet of version 2.
fn expect_wide(rt: &impl Abort, document: &Table) -> Result<(), Fail> {
    expect_keys(rt, document, 5);
    expect_number(rt, document, "version", 2);
    let heap = heap_in(document).ok_or("a heap")?;
    expect_keys(rt, heap, 6);
    expect_pair(rt, heap, "board", [200, 54]);
    expect_number(rt, heap, "registers", 32);
    let high = only_table(document, "high").ok_or("a high task")?;
    expect_number(rt, high, "jitter", 8);
    expect_number(rt, high, "lag", 5);
    Ok(())
}

#[test]
fn prints_version_2(rt: HostRuntime) -> Result<(), Fail> {
    let alloc = rt.alloc();
    let sheet = wide(alloc)?;
    expect_wide(&rt, &printed(alloc, &sheet)?)
}

/// A sheet has this heap, and one high task with these numbers.
fn expect_same(rt: &impl Abort, sheet: &Sheet, heap: HeapKeys) {
    match sheet.high.items.as_slice() {
        [high] => {
            assert_eq!(rt;
                (sheet.heap, high.timing.jitter, high.lag, high.words),
                (heap, 8, 5, 7)
            )
        }
        _ => panic!(rt; "a high task"),
    }
}

/// Reads what is printed of a sheet with one high task, and compares its heap and its task.
fn expect_again(rt: &impl Abort, alloc: Global, sheet: &Sheet, heap: HeapKeys) -> Result<(), Fail>
    requires { IsSheet sheet.now }
{
    let bytes = text(alloc, sheet).map_err(|_| "memory")?;
    expect_same(rt, &read(alloc, &bytes)?, heap);
    Ok(())
}

#[test]
fn reads_what_it_prints(rt: HostRuntime) -> Result<(), Fail> {
    let alloc = rt.alloc();
    expect_again(&rt, alloc, &both(alloc)?, KEYS)?;
    expect_again(&rt, alloc, &wide(alloc)?, WIDE)?;
    Ok(())
}
