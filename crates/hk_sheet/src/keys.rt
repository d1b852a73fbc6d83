//! The keys of a table: what each of them holds, or its fault.
ghost use Rattle.std.specs.Prelude.{◌≡◌, ◌≤◌, ◌++◌, codes, is_some, option_map, None, Some, IfOk, MatchResult};
ghost use Rattle.std.specs.List.{list_any};
ghost use Rattle.std.specs.Str.{bytes_eq};
ghost use Rattle.toml.specs.Data.{get_member};
ghost use Rattle.toml.specs.View.{view, table_view};
ghost use Rattle.hk_sheet.specs.Rules.{number, pair, ticks_of_run, text, one_table, tables, needs, may_have, number_at};
ghost use Rattle.hk_sheet.specs.Reading.{text_at, table_at, tables_at, numbers_at, first_of_pair, second_of_pair};
ghost use Rattle.hk_sheet.specs.Faults.{is_known, unknown_keys, least, unknown_fault, fault_of_key};
ghost use Rattle.hk_sheet.specs.declared.error.SheetError.TheVariants.{Missing};
ghost use Rattle.hk_sheet.specs.Code.{seen, texts, fault_of_wrong, Refuses, Checks, Gives, Shows};

use crate::paths::{key_at, shown_at};
use crate::values::{Wrong, number_in, pair_in, table_in, tables_in, text_in, ticks_in};
use crate::{Name, SheetError};
use std::alloc::Global;
use toml::{Table, Value};

/// A table whose keys are read, and how their paths begin.
#[derive(Clone, Copy)]
pub(crate) struct Keys<'a> {
    pub(crate) alloc: Global,
    pub(crate) path: &'a str,
    pub(crate) table: &'a Table,
}

/// Whether a key is one of some.
fn is_among(listed: &[&str], key: &str) -> bool
    ensures { result ≡ list_any (λ other. bytes_eq other key.now) (texts listed.now) }
{
    for other in listed {
        if *other == key {
            return true;
        }
    }
    false
}

/// Whether a key is one of some or of some more.
#[tactic(auto, unfolding(crate::specs::Faults::is_known))]
fn is_listed(own: &[&str], more: &[&str], key: &str) -> bool
    ensures { result ≡ is_known (texts own.now ++ texts more.now) key.now }
{
    is_among(own, key) || is_among(more, key)
}

impl<'a> Keys<'a> {
    /// The value at a key.
    fn value(&self, key: &str) -> Option<&'a Value>
        ensures { option_map (λ v. view v.now) result ≡ get_member key.now (table_view self.now.table.now) }
    {
        self.table.get(key)
    }

    /// Whether there is such a key.
    pub(crate) fn has(&self, key: &str) -> bool
        ensures { result ≡ is_some (get_member key.now (table_view self.now.table.now)) }
    {
        self.value(key).is_some()
    }

    /// The least key that is none of these. The keys of a table ascend, so it is the first one.
    fn unlisted(&self, own: &[&str], more: &[&str]) -> Option<&'a str>
        ensures { option_map (λ key. key.now) result ≡ least (unknown_keys (texts own.now ++ texts more.now) (table_view self.now.table.now)) }
    {
        let table = self.table;
        for key in table.keys() {
            if !is_listed(own, more, key.as_str()) {
                return Some(key.as_str());
            }
        }
        None
    }

    /// Checks that there are no other keys than these.
    #[tactic(auto, unfolding(crate::specs::Faults::unknown_fault))]
    pub(crate) fn only(&self, own: &[&str], more: &[&str]) -> Result<(), SheetError>
        ensures { Checks (unknown_fault self.now.path.now (texts own.now ++ texts more.now) (table_view self.now.table.now)) result }
    {
        match self.unlisted(own, more) {
            Some(key) => Err(SheetError::Unknown(shown_at(self.alloc, self.path, key)?)),
            None => Ok(()),
        }
    }

    /// The fault of a key whose value is wrong.
    fn fault(&self, key: &str, wrong: Wrong) -> SheetError
        ensures { Refuses result (fault_of_wrong (self.now.path.now ++ key.now) wrong) }
    {
        match (key_at(self.alloc, self.path, key), wrong) {
            (Ok(key), Wrong::Kind) => SheetError::Kind(key),
            (Ok(key), Wrong::Range) => SheetError::Range(key),
            _ => SheetError::Memory,
        }
    }

    /// The value at a key that is needed.
    fn needed(&self, key: &str) -> Result<&'a Value, SheetError>
        ensures { let held = get_member key.now (table_view self.now.table.now) in MatchResult result (λ v. held ≡ Some (view v.now)) (λ e. (held ≡ None) × Refuses e (Some (Missing (self.now.path.now ++ key.now)))) }
    {
        match self.value(key) {
            Some(value) => Ok(value),
            None => Err(SheetError::Missing(key_at(self.alloc, self.path, key)?)),
        }
    }

    /// The number from low to high at a key that is needed.
    pub(crate) fn number(&self, key: &str, low: u64, high: u64) -> Result<u64, SheetError>
        ensures range { IfOk result (λ n. (low ≤ n) × (n ≤ high)) }
        ensures value { let entries = table_view self.now.table.now in Gives (fault_of_key self.now.path.now entries (needs key.now (number low high))) (number_at key.now entries) result }
    {
        match number_in(low, high, self.needed(key)?) {
            Ok(number) => Ok(number),
            Err(wrong) => Err(self.fault(key, wrong)),
        }
    }

    /// The number from 0 to high at a key that may be missing, and then 0.
    pub(crate) fn number_or_0(&self, key: &str, high: u64) -> Result<u64, SheetError>
        ensures { let entries = table_view self.now.table.now in Gives (fault_of_key self.now.path.now entries (may_have key.now (number 0 high))) (number_at key.now entries) result }
    {
        if self.has(key) {
            self.number(key, 0, high)
        } else {
            Ok(0)
        }
    }

    /// The two numbers from 0 to high at a key that is needed.
    pub(crate) fn pair(&self, key: &str, high: u64) -> Result<(u64, u64), SheetError>
        ensures range { IfOk result (λ found. (found.0 ≤ high) × (found.1 ≤ high)) }
        ensures value { let entries = table_view self.now.table.now in Gives (fault_of_key self.now.path.now entries (needs key.now (pair high))) (first_of_pair (numbers_at key.now entries), second_of_pair (numbers_at key.now entries)) result }
    {
        match pair_in(high, self.needed(key)?) {
            Ok(numbers) => Ok(numbers),
            Err(wrong) => Err(self.fault(key, wrong)),
        }
    }

    /// The ticks at a key that is needed, of a run of so many.
    pub(crate) fn ticks(&self, key: &str, run: u64) -> Result<Vec<u64>, SheetError>
        ensures { let entries = table_view self.now.table.now in Shows (λ v. v.items) (fault_of_key self.now.path.now entries (needs key.now (ticks_of_run run))) (numbers_at key.now entries) result }
    {
        match ticks_in(self.alloc, run, self.needed(key)?) {
            Ok(ticks) => Ok(ticks),
            Err(wrong) => Err(self.fault(key, wrong)),
        }
    }

    /// The text at a key that is needed.
    pub(crate) fn text(&self, key: &str) -> Result<&'a str, SheetError>
        ensures { let entries = table_view self.now.table.now in Shows (λ s. s.now) (fault_of_key self.now.path.now entries (needs key.now text)) (text_at key.now entries) result }
    {
        match text_in(self.needed(key)?) {
            Ok(text) => Ok(text),
            Err(wrong) => Err(self.fault(key, wrong)),
        }
    }

    /// The name at a key that is needed.
    pub(crate) fn name(&self, key: &str) -> Result<Name, SheetError>
        ensures { let entries = table_view self.now.table.now in Gives (fault_of_key self.now.path.now entries (needs key.now text)) (text_at key.now entries) result }
    {
        let text = self.text(key)?;
        let items = Vec::from_slice(self.alloc, text.as_bytes())?;
        Ok(Name { items })
    }

    /// The table at a key that is needed.
    pub(crate) fn table(&self, key: &str) -> Result<&'a Table, SheetError>
        ensures { let entries = table_view self.now.table.now in Shows (λ t. table_view t.now) (fault_of_key self.now.path.now entries (needs key.now one_table)) (table_at key.now entries) result }
    {
        match table_in(self.needed(key)?) {
            Ok(table) => Ok(table),
            Err(wrong) => Err(self.fault(key, wrong)),
        }
    }

    /// The tables of the array at a key, and none where it is missing.
    pub(crate) fn tables(&self, key: &str) -> Result<Vec<&'a Table>, SheetError>
        ensures { let entries = table_view self.now.table.now in Shows (λ v. seen v.items) (fault_of_key self.now.path.now entries (may_have key.now tables)) (tables_at key.now entries) result }
    {
        let Some(value) = self.value(key) else {
            return Ok(Vec::new(self.alloc));
        };
        match tables_in(self.alloc, value) {
            Ok(tables) => Ok(tables),
            Err(wrong) => Err(self.fault(key, wrong)),
        }
    }
}
