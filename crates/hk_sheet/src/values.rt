//! What the values of a TOML document hold where they are of some kind.
ghost use Rattle.std.specs.Prelude.{◌≡◌, ◌<◌, ◌≤◌, ◌-◌, ◌^◌, ◌&&◌, map, nat_le, length, unwrap_or, is_some, true, [], IfSome, IfOk};
ghost use Rattle.std.specs.List.{filter_map, list_all};
ghost use Rattle.toml.specs.Data.{no_members, as_str, as_table};
ghost use Rattle.toml.specs.View.{view, table_view};
ghost use Rattle.hk_sheet.specs.Rules.{elements_of, number_of, number, pair, ticks_of_run, text, one_table, tables, is_integer, is_in, wrong_unless, wrong_in};
ghost use Rattle.hk_sheet.specs.Reading.{first_of_pair, second_of_pair};
ghost use Rattle.hk_sheet.specs.declared.values.Wrong.TheVariants.{Memory};
ghost use Rattle.hk_sheet.specs.Code.{natural_of, seen, Finds};

use crate::sheet::MAX_ARRIVALS;
use std::alloc::{AllocError, AllocFailed, Global};
use toml::{Table, Value};

/// What is wrong with a value.
#[derive(Clone, Copy, Debug)]
pub(crate) enum Wrong {
    /// It isn't of its kind.
    Kind,
    /// It is out of its range.
    Range,
    /// There was no memory for what it holds.
    Memory,
}

impl From<AllocError> for Wrong {
    ghost from_gives = { λ _ e. e ≡ Memory };

    fn from(_error: AllocError) -> Wrong {
        Wrong::Memory
    }
}

impl<T: Drop> From<AllocFailed<T>> for Wrong {
    ghost from_gives = { λ _ e. e ≡ Memory };

    fn from(_error: AllocFailed<T>) -> Wrong {
        Wrong::Memory
    }
}

/// The natural number that a value is.
fn natural(value: &Value) -> Option<u64>
    ensures value { result ≡ natural_of (view value.now) }
    ensures fits { IfSome result (λ n. n < 2 ^ 63) }
{
    u64::try_from(value.as_integer()?).ok()
}

/// The number that a value is, and 0 where it is none.
fn number(value: &Value) -> u64
    ensures value { result ≡ number_of (view value.now) }
    ensures fits { result < 2 ^ 63 }
{
    natural(value).unwrap_or(0)
}

/// Whether a value is an integer from low to high.
fn is_in(low: u64, high: u64, value: &Value) -> bool
    ensures { result ≡ is_in low high (view value.now) }
{
    match natural(value) {
        Some(number) => low <= number && number <= high,
        None => false,
    }
}

/// An integer from low to high.
pub(crate) fn number_in(low: u64, high: u64, value: &Value) -> Result<u64, Wrong>
    ensures value { Finds (λ n. n) (wrong_in (number low high) (view value.now)) (number_of (view value.now)) result }
    ensures range { IfOk result (λ n. (low ≤ n) × (n ≤ high)) }
{
    match natural(value) {
        Some(number) if low <= number && number <= high => Ok(number),
        _ if value.is_integer() => Err(Wrong::Range),
        _ => Err(Wrong::Kind),
    }
}

/// The elements of an array, and none of another value.
fn elements(value: &Value) -> &[Value]
    ensures { map view result.now ≡ elements_of (view value.now) }
{
    match value.as_array() {
        Some(items) => items.as_slice(),
        None => &[],
    }
}

/// The two integers from 0 to high of an array.
pub(crate) fn pair_in(high: u64, value: &Value) -> Result<(u64, u64), Wrong>
    ensures range { IfOk result (λ found. (found.0 ≤ high) × (found.1 ≤ high)) }
    ensures value { Finds (λ found. found) (wrong_in (pair high) (view value.now)) (first_of_pair (map number_of (elements_of (view value.now))), second_of_pair (map number_of (elements_of (view value.now)))) result }
{
    let [first, second] = elements(value) else {
        return Err(Wrong::Kind);
    };
    if !first.is_integer() || !second.is_integer() {
        return Err(Wrong::Kind);
    }
    Ok((number_in(0, high, first)?, number_in(0, high, second)?))
}

/// The ticks that values are, of a run of so many.
fn ticks(alloc: Global, ticks: u64, values: &[Value]) -> Result<Vec<u64>, Wrong>
    ensures { let ds = map view values.now in Finds (λ v. v.items) (wrong_unless (list_all is_integer ds) (nat_le (length ds) 4096 && list_all (is_in 0 (ticks - 1)) ds)) (map number_of ds) result }
{
    let last = ticks.saturating_sub(1);
    let mut within = values.len() <= MAX_ARRIVALS;
    let mut numbers = Vec::with_capacity(alloc, values.len())?;
    for value in values {
        if !value.is_integer() {
            return Err(Wrong::Kind);
        }
        within = within && is_in(0, last, value);
        numbers.push(number(value))?;
    }
    if within {
        Ok(numbers)
    } else {
        Err(Wrong::Range)
    }
}

/// The ticks of an array, of a run of so many.
pub(crate) fn ticks_in(alloc: Global, run: u64, value: &Value) -> Result<Vec<u64>, Wrong>
    ensures { Finds (λ v. v.items) (wrong_in (ticks_of_run run) (view value.now)) (map number_of (elements_of (view value.now))) result }
{
    if !value.is_array() {
        return Err(Wrong::Kind);
    }
    ticks(alloc, run, elements(value))
}

/// A string.
pub(crate) fn text_in(value: &Value) -> Result<&str, Wrong>
    ensures { Finds (λ s. s.now) (wrong_in text (view value.now)) (unwrap_or (as_str (view value.now)) []) result }
{
    match value.as_str() {
        Some(text) => Ok(text),
        None => Err(Wrong::Kind),
    }
}

/// A table.
pub(crate) fn table_in(value: &Value) -> Result<&Table, Wrong>
    ensures { Finds (λ t. table_view t.now) (wrong_in one_table (view value.now)) (unwrap_or (as_table (view value.now)) no_members) result }
{
    match value.as_table() {
        Some(table) => Ok(table),
        None => Err(Wrong::Kind),
    }
}

/// The tables that values are.
fn tables(alloc: Global, values: &[Value]) -> Result<Vec<&Table>, Wrong>
    ensures { let ds = map view values.now in Finds (λ v. seen v.items) (wrong_unless (list_all (λ d. is_some (as_table d)) ds) true) (filter_map as_table ds) result }
{
    let mut tables = Vec::with_capacity(alloc, values.len())?;
    for value in values {
        let Some(table) = value.as_table() else {
            return Err(Wrong::Kind);
        };
        tables.push(table)?;
    }
    Ok(tables)
}

/// The tables of an array.
pub(crate) fn tables_in(alloc: Global, value: &Value) -> Result<Vec<&Table>, Wrong>
    ensures { Finds (λ v. seen v.items) (wrong_in tables (view value.now)) (filter_map as_table (elements_of (view value.now))) result }
{
    if !value.is_array() {
        return Err(Wrong::Kind);
    }
    tables(alloc, elements(value))
}
