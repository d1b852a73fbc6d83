//! Printing a sheet as a TOML document.

ghost use Rattle.std.specs.Prelude.{◌≡◌, true, codes, map, Ok, IsUtf8, IfOk, OnOk};
ghost use Rattle.std.specs.List.{AllByRecursion};
ghost use Rattle.toml.specs.Data.{string, array};
ghost use Rattle.toml.specs.View.{view, items_of, table_view};
ghost use Rattle.hk_script.specs.Blocks.{IsScript};
ghost use Rattle.hk_script.specs.Limits.{widest};
ghost use Rattle.hk_script.specs.Printing.{text_of};
ghost use Rattle.hk_sheet.specs.Answers.{IsRead};
ghost use Rattle.hk_sheet.specs.Faults.{is_name};
ghost use Rattle.hk_sheet.specs.Printing.{number_data, numbers_data, with_entry, with_arrivals, heap_entries, high_entries, low_entries, high_data, low_data, document_of, version_of, FitsInteger, ArrivalsFit, IsHighOfRun, IsLowOfRun};
ghost use Rattle.hk_sheet.specs.Valid.{IsHeap, IsSheet};

use crate::{Arrivals, HeapKeys, High, Low, Name, Sheet};
use hk_script::Script;
use hk_words::{MAX_FIELDS, Memory};
use std::alloc::{AllocError, Global};
use toml::{Table, Value};

/// A number as a value.
fn number_value(number: u64) -> Value
    requires { FitsInteger number }
    ensures { view result ≡ number_data number }
{
    Value::Integer(number as i64)
}

/// Numbers as an array.
fn numbers_value(alloc: Global, numbers: &[u64]) -> Result<Value, AllocError>
    requires { AllByRecursion FitsInteger numbers.now }
    ensures { IfOk result (λ value. view value ≡ numbers_data numbers.now) }
{
    let mut values = Vec::with_capacity(alloc, numbers.len())?;
    for number in numbers {
        values.push(number_value(*number))?;
    }
    Ok(Value::Array(values))
}

/// Bytes that are text as a string.
fn text_value(alloc: Global, bytes: &[u8]) -> Result<Value, AllocError>
    requires { IsUtf8 bytes.now }
    ensures { IfOk result (λ value. view value ≡ string bytes.now) }
{
    match std::str::from_utf8(bytes) {
        Ok(text) => Value::string(alloc, text),
        Err(_) => unreachable!(),
    }
}

/// Puts the value of a key into a table.
fn put(alloc: Global, table: &mut Table, key: &str, value: Value) -> Result<(), AllocError>
    ensures { OnOk result (table_view table.new ≡ with_entry key.now (view value) (table_view table.old)) }
{
    table.insert(String::from_str(alloc, key)?, value)?;
    Ok(())
}

/// Puts a task's arrivals into its table.
fn put_arrivals(alloc: Global, table: &mut Table, arrivals: &Arrivals) -> Result<(), AllocError>
    requires { ArrivalsFit arrivals.now }
    ensures { OnOk result (table_view table.new ≡ with_arrivals arrivals.now (table_view table.old)) }
{
    match arrivals {
        Arrivals::Every { first, step } => {
            put(alloc, table, "first", number_value(*first))?;
            put(alloc, table, "every", number_value(*step))
        }
        Arrivals::List(ticks) => {
            let list = numbers_value(alloc, &ticks.items)?;
            put(alloc, table, "arrivals", list)
        }
    }
}

/// The version of the sheets with this heap.
fn version(heap: &HeapKeys) -> u64
    ensures { result ≡ version_of heap.now }
{
    if heap.fields == MAX_FIELDS { 2 } else { 1 }
}

/// The table of the heap.
fn heap_table(alloc: Global, heap: &HeapKeys) -> Result<Table, AllocError>
    requires { IsHeap heap.now }
    ensures { IfOk result (λ table. table_view table ≡ heap_entries heap.now) }
{
    let board = numbers_value(alloc, &[heap.refs.into(), heap.nums.into()])?;
    let mut table = Table::new(alloc);
    put(alloc, &mut table, "live", number_value(heap.live.into()))?;
    put(alloc, &mut table, "alloc", number_value(heap.alloc.into()))?;
    put(
        alloc,
        &mut table,
        "reserve",
        number_value(heap.reserve.into()),
    )?;
    put(alloc, &mut table, "rate", number_value(heap.rate))?;
    put(alloc, &mut table, "board", board)?;
    if heap.fields == MAX_FIELDS {
        put(
            alloc,
            &mut table,
            "registers",
            number_value(heap.registers.into()),
        )?;
    }
    Ok(table)
}

/// Puts the text of a script into the table of its task.
fn put_script(alloc: Global, table: &mut Table, script: &Script) -> Result<(), Memory>
    requires { IsScript widest script.now }
    ensures { OnOk result (table_view table.new ≡ with_entry (codes "script") (string (text_of script.now)) (table_view table.old)) }
{
    let text = hk_script::print(alloc, script)?;
    let value = text_value(alloc, &text)?;
    put(alloc, table, "script", value)?;
    Ok(())
}

/// Puts the name of a task into its table.
fn put_name(alloc: Global, table: &mut Table, name: &Name) -> Result<(), AllocError>
    requires { is_name name.now ≡ true }
    ensures { OnOk result (table_view table.new ≡ with_entry (codes "name") (string name.now) (table_view table.old)) }
{
    let value = text_value(alloc, &name.items)?;
    put(alloc, table, "name", value)
}

/// The table of a high task.
fn high_table(alloc: Global, high: &High) -> Result<Table, Memory>
    requires { IsHighOfRun high.now }
    ensures { IfOk result (λ table. table_view table ≡ high_entries high.now) }
{
    let timing = high.timing;
    let mut table = Table::new(alloc);
    put_name(alloc, &mut table, &high.name)?;
    put(alloc, &mut table, "period", number_value(timing.period))?;
    put(alloc, &mut table, "deadline", number_value(timing.deadline))?;
    put(alloc, &mut table, "cost", number_value(timing.cost))?;
    put(alloc, &mut table, "words", number_value(high.words))?;
    put(alloc, &mut table, "jitter", number_value(timing.jitter))?;
    put(alloc, &mut table, "lag", number_value(high.lag))?;
    put_script(alloc, &mut table, &high.script)?;
    put_arrivals(alloc, &mut table, &high.arrivals)?;
    Ok(table)
}

/// The table of a low task.
fn low_table(alloc: Global, low: &Low) -> Result<Table, Memory>
    requires { IsLowOfRun low.now }
    ensures { IfOk result (λ table. table_view table ≡ low_entries low.now) }
{
    let mut table = Table::new(alloc);
    put_name(alloc, &mut table, &low.name)?;
    put_script(alloc, &mut table, &low.script)?;
    put_arrivals(alloc, &mut table, &low.arrivals)?;
    Ok(table)
}

/// The tables of the high tasks as an array.
fn highs_value(alloc: Global, tasks: &[High]) -> Result<Value, Memory>
    requires { AllByRecursion IsHighOfRun tasks.now }
    ensures { IfOk result (λ value. view value ≡ array (items_of (map high_data tasks.now))) }
{
    let mut values = Vec::with_capacity(alloc, tasks.len())?;
    for task in tasks {
        values.push(Value::Table(high_table(alloc, task)?))?;
    }
    Ok(Value::Array(values))
}

/// The tables of the low tasks as an array.
fn lows_value(alloc: Global, tasks: &[Low]) -> Result<Value, Memory>
    requires { AllByRecursion IsLowOfRun tasks.now }
    ensures { IfOk result (λ value. view value ≡ array (items_of (map low_data tasks.now))) }
{
    let mut values = Vec::with_capacity(alloc, tasks.len())?;
    for task in tasks {
        values.push(Value::Table(low_table(alloc, task)?))?;
    }
    Ok(Value::Array(values))
}

/// The document of a sheet.
#[tactic(auto, unfolding(crate::specs::Printing::document_of))]
fn document(alloc: Global, sheet: &Sheet) -> Result<Table, Memory>
    requires { IsSheet sheet.now }
    ensures { IfOk result (λ table. table_view table ≡ document_of sheet.now) }
{
    let heap = heap_table(alloc, &sheet.heap)?;
    let high = highs_value(alloc, &sheet.high.items)?;
    let low = lows_value(alloc, &sheet.low.items)?;
    let mut table = Table::new(alloc);
    put(
        alloc,
        &mut table,
        "version",
        number_value(version(&sheet.heap)),
    )?;
    put(alloc, &mut table, "ticks", number_value(sheet.ticks))?;
    put(alloc, &mut table, "heap", Value::Table(heap))?;
    put(alloc, &mut table, "high", high)?;
    put(alloc, &mut table, "low", low)?;
    Ok(table)
}

/// The text of a sheet, as bytes: a TOML document that is read as the sheet.
pub fn text(alloc: Global, sheet: &Sheet) -> Result<Vec<u8>, Memory>
    requires { IsSheet sheet.now }
    ensures { IfOk result (λ bytes. IsRead bytes.items (Ok sheet.now)) }
{
    let document = document(alloc, sheet)?;
    match toml::table_to_string(alloc, &document) {
        Ok(text) => Ok(text.into_bytes()),
        Err(toml::ser::Error::OutOfMemory) => Err(Memory),
        Err(toml::ser::Error::DateInvalid) => unreachable!(),
    }
}
