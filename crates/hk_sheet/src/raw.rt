//! A sheet as its tables say it, before the names, the arrivals, the scripts and the geometry are judged.
ghost use Rattle.std.specs.Prelude.{◌≡◌, ℕ, ◌≤◌, ◌++◌, [], ◌∷◌, codes, map, All, IfOk};
ghost use Rattle.toml.specs.Data.{Members};
ghost use Rattle.toml.specs.View.{table_view};
ghost use Rattle.hk_script.specs.Limits.{limits_of};
ghost use Rattle.hk_script.specs.Texts.{script_of};
ghost use Rattle.hk_sheet.specs.Rules.{text, needs, keys_in, has_list, arrival_rules, register_rules, time_rules, job_rules, task_rules, heap_rules, top_rules};
ghost use Rattle.hk_sheet.specs.Reading.{text_at, registers_in, arrivals_in, heap_in};
ghost use Rattle.hk_sheet.specs.Faults.{first_of, fault_of_key, fault_of_keys, fault_of_table, faults_of_tasks, fault_of_tables};
ghost use Rattle.hk_sheet.specs.Raw.{times_in, raw_task, Fits64, IsFit, IsTop, IsRaw};
ghost use Rattle.hk_sheet.specs.Valid.{IsHeap};
ghost use Rattle.hk_sheet.specs.Code.{seen, texts, Checks, Gives, Shows};

use crate::SheetError;
use crate::arrivals::{Arrivals, Ticks};
use crate::keys::Keys;
use crate::paths::task_path;
use crate::sheet::{HeapKeys, MAX_BOARD, MAX_RATE, MAX_SIZE, MAX_TICKS, Name};
use hk_rta::Timing;
use hk_script::{Script, ScriptError, parse_in};
use hk_words::{MAX_FIELDS, MAX_REGISTERS, MIN_REGISTERS, REGISTERS, USUAL_FIELDS};
use std::alloc::{AllocError, Global};
use toml::Table;

/// The times of a high task in ticks, the most words that one of its jobs takes, and how many ticks longer each job is
/// delayed than the one before.
#[derive(Clone, Copy)]
pub(crate) struct Times {
    pub(crate) timing: Timing,
    pub(crate) words: u64,
    pub(crate) lag: u64,
}

/// A document's own keys: whether it is of version 2, and the tables in it.
#[derive(Drop)]
pub(crate) struct Top<'a> {
    pub(crate) second: bool,
    pub(crate) ticks: u64,
    pub(crate) heap: &'a Table,
    pub(crate) highs: Vec<&'a Table>,
    pub(crate) lows: Vec<&'a Table>,
}

/// A task as its table says it; a high one has times. Its script is what the text spells, or why it spells none.
#[derive(Drop)]
pub(crate) struct RawTask {
    pub(crate) name: Name,
    pub(crate) times: Option<Times>,
    pub(crate) arrivals: Arrivals,
    pub(crate) script: Result<Script, ScriptError>,
}

/// A sheet as its tables say it, the high tasks before the low ones: every key is known and there, of its kind and in its
/// range.
#[derive(Drop)]
pub(crate) struct RawSheet {
    pub(crate) ticks: u64,
    pub(crate) heap: HeapKeys,
    pub(crate) tasks: Vec<RawTask>,
}

/// The first keys of a task, high or low: its name, and the times of a high one.
#[tactic(auto, unfolding(crate::specs::Rules::time_rules))]
fn first_keys(high: bool) -> &'static [&'static str]
    ensures { (entries : Members) → texts result.now ≡ keys_in (needs (codes "name") text ∷ time_rules high entries) }
{
    if high {
        &[
            "name", "period", "deadline", "cost", "words", "jitter", "lag",
        ]
    } else {
        &["name"]
    }
}

/// The keys of a task behind them: when its jobs arrive, in a list or not, and what they do.
#[tactic(auto, unfolding(crate::specs::Rules::arrival_rules))]
fn last_keys(listed: bool) -> &'static [&'static str]
    ensures { (ticks : ℕ) → texts result.now ≡ keys_in (job_rules ticks listed) }
{
    if listed {
        &["arrivals", "script"]
    } else {
        &["first", "every", "script"]
    }
}

/// The key of the registers, which a sheet of version 2 has.
#[tactic(auto, unfolding(crate::specs::Rules::register_rules))]
fn register_keys(second: bool) -> &'static [&'static str]
    ensures { texts result.now ≡ keys_in (register_rules second) }
{
    if second { &["registers"] } else { &[] }
}

impl Keys<'_> {
    /// The times of a task, which only a high one has.
    #[tactic(auto, unfolding(crate::specs::Rules::time_rules, crate::specs::Raw::times_in, crate::specs::Reading::timing_in))]
    fn times(&self, high: bool) -> Result<Option<Times>, SheetError>
        ensures { let entries = table_view self.now.table.now in Gives (fault_of_keys self.now.path.now entries (time_rules high entries)) (times_in high entries) result }
    {
        if high {
            let period = self.number("period", 1, MAX_TICKS)?;
            let deadline = self.number("deadline", 1, period)?;
            let cost = self.number("cost", 1, MAX_TICKS)?;
            let words = self.number("words", 0, MAX_TICKS)?;
            let jitter = self.number_or_0("jitter", deadline - 1)?;
            let lag = self.number_or_0("lag", MAX_TICKS)?;
            let timing = Timing {
                cost,
                period,
                deadline,
                jitter,
            };
            Ok(Some(Times { timing, words, lag }))
        } else {
            Ok(None)
        }
    }

    /// When the jobs of a task arrive, in a run of so many ticks.
    #[tactic(auto, unfolding(crate::specs::Rules::arrival_rules, crate::specs::Reading::arrivals_in))]
    fn arrivals(&self, run: u64) -> Result<Arrivals, SheetError>
        ensures fits { IfOk result Fits64 }
        ensures read { let entries = table_view self.now.table.now in Gives (fault_of_keys self.now.path.now entries (arrival_rules run (has_list entries))) (arrivals_in entries) result }
    {
        if self.has("arrivals") {
            let items = self.ticks("arrivals", run)?;
            return Ok(Arrivals::List(Ticks { items }));
        }
        let first = self.number("first", 0, MAX_TICKS)?;
        let step = self.number("every", 1, MAX_TICKS)?;
        Ok(Arrivals::Every { first, step })
    }

    /// What the text of a task's script spells, beside this heap, or why it spells no script.
    fn script(&self, heap: &HeapKeys) -> Result<Result<Script, ScriptError>, SheetError>
        requires { IsHeap heap.now }
        ensures { let entries = table_view self.now.table.now in Gives (fault_of_key self.now.path.now entries (needs (codes "script") text)) (script_of (limits_of heap.now.fields heap.now.registers) (text_at (codes "script") entries)) result }
    {
        let text = self.text("script")?;
        match parse_in(self.alloc, text.as_bytes(), heap.fields, heap.registers) {
            Err(ScriptError::Memory) => Err(SheetError::Memory),
            read => Ok(read),
        }
    }

    /// A task, high or low, beside this heap, in a run of so many ticks.
    fn task(&self, high: bool, run: u64, heap: &HeapKeys) -> Result<RawTask, SheetError>
        requires { IsHeap heap.now }
        ensures read { let entries = table_view self.now.table.now in Gives (fault_of_table self.now.path.now (task_rules high run entries) entries) (raw_task high heap.now entries) result }
        ensures fits { IfOk result IsFit }
    {
        self.only(first_keys(high), last_keys(self.has("arrivals")))?;
        let name = self.name("name")?;
        let times = self.times(high)?;
        let arrivals = self.arrivals(run)?;
        let script = self.script(heap)?;
        Ok(RawTask {
            name,
            times,
            arrivals,
            script,
        })
    }

    /// The registers of a task, in a sheet of version 2 or of another.
    #[tactic(auto, unfolding(crate::specs::Rules::register_rules))]
    fn registers(&self, second: bool) -> Result<u64, SheetError>
        ensures range { IfOk result (λ n. n ≤ 32) }
        ensures value { let entries = table_view self.now.table.now in Gives (fault_of_keys self.now.path.now entries (register_rules second)) (registers_in second entries) result }
    {
        if second {
            self.number("registers", MIN_REGISTERS.into(), MAX_REGISTERS.into())
        } else {
            Ok(REGISTERS.into())
        }
    }
}

/// The tasks of one kind, high or low, beside this heap, in a run of so many ticks.
fn raw_tasks(
    alloc: Global,
    kind: &str,
    high: bool,
    run: u64,
    heap: &HeapKeys,
    tables: &[&Table],
) -> Result<Vec<RawTask>, SheetError>
    requires { IsHeap heap.now }
    ensures read { Shows (λ v. v.items) (first_of (faults_of_tasks kind.now (task_rules high run) 0 (seen tables.now))) (map (raw_task high heap.now) (seen tables.now)) result }
    ensures fits { IfOk result (λ v. All IsFit v.items) }
{
    let mut tasks = Vec::with_capacity(alloc, tables.len())?;
    for (index, table) in tables.iter().enumerate() {
        let path = task_path(alloc, kind, index)?;
        let keys = Keys {
            alloc,
            path: path.as_str(),
            table,
        };
        tasks.push(keys.task(high, run, heap)?)?;
    }
    Ok(tasks)
}

/// Some tasks, and others behind them.
fn joined(mut tasks: Vec<RawTask>, more: Vec<RawTask>) -> Result<Vec<RawTask>, AllocError>
    ensures { IfOk result (λ v. v.items ≡ tasks.items ++ more.items) }
{
    tasks.extend(more)?;
    Ok(tasks)
}

/// The heap, in a sheet of version 2 or of another.
#[tactic(auto, unfolding(crate::specs::Faults::fault_of_table, crate::specs::Rules::heap_rules, crate::specs::Reading::heap_in))]
fn heap_in(alloc: Global, second: bool, table: &Table) -> Result<HeapKeys, SheetError>
    ensures { Gives (fault_of_table (codes "heap.") (heap_rules second) (table_view table.now)) (heap_in second (table_view table.now)) result }
{
    let keys = Keys {
        alloc,
        path: "heap.",
        table,
    };
    let own = ["live", "alloc", "reserve", "rate", "board"];
    keys.only(&own, register_keys(second))?;
    let live = keys.number("live", 0, MAX_SIZE)?;
    let room = keys.number("alloc", 0, MAX_SIZE)?;
    let reserve = keys.number("reserve", 0, MAX_SIZE)?;
    let rate = keys.number("rate", 1, MAX_RATE)?;
    let (refs, nums) = keys.pair("board", MAX_BOARD)?;
    let registers = keys.registers(second)?;
    Ok(HeapKeys {
        live: live as u32,
        alloc: room as u32,
        reserve: reserve as u32,
        rate,
        refs: refs as u8,
        nums: nums as u8,
        registers: registers as u8,
        fields: if second { MAX_FIELDS } else { USUAL_FIELDS },
    })
}

/// What a document says of its own keys.
#[tactic(auto, unfolding(crate::specs::Faults::fault_of_table, crate::specs::Rules::top_rules))]
fn top_in(alloc: Global, document: &Table) -> Result<Top<'_>, SheetError>
    ensures fault { Checks (fault_of_table [] top_rules (table_view document.now)) result }
    ensures read { IfOk result (IsTop (table_view document.now)) }
{
    let keys = Keys {
        alloc,
        path: "",
        table: document,
    };
    keys.only(&["version", "ticks", "heap", "high", "low"], &[])?;
    let second = keys.number("version", 1, 2)? == 2;
    let ticks = keys.number("ticks", 1, MAX_TICKS)?;
    let heap = keys.table("heap")?;
    let highs = keys.tables("high")?;
    let lows = keys.tables("low")?;
    Ok(Top {
        second,
        ticks,
        heap,
        highs,
        lows,
    })
}

/// A sheet as the tables of a document say it, or their first fault.
#[tactic(auto, unfolding(crate::specs::Faults::fault_of_tables))]
pub(crate) fn raw_sheet(alloc: Global, document: &Table) -> Result<RawSheet, SheetError>
    ensures fault { Checks (fault_of_tables (table_view document.now)) result }
    ensures read { IfOk result (IsRaw (table_view document.now)) }
{
    let top = top_in(alloc, document)?;
    let heap = heap_in(alloc, top.second, top.heap)?;
    let highs = raw_tasks(alloc, "high", true, top.ticks, &heap, &top.highs)?;
    let lows = raw_tasks(alloc, "low", false, top.ticks, &heap, &top.lows)?;
    Ok(RawSheet {
        ticks: top.ticks,
        heap,
        tasks: joined(highs, lows)?,
    })
}
