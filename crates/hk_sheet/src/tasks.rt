//! What is judged of a sheet when its tables are read: the names, the arrivals and the scripts of all tasks, and the
//! geometry.
ghost use Rattle.std.specs.Prelude.{◌≡◌, ◌+◌, ◌<◌, ◌^◌, ◌++◌, [], map, All, IfOk};
ghost use Rattle.std.specs.List.{list_all};
ghost use Rattle.hk_sheet.specs.declared.arrivals.Arrivals.TheVariants.{Every};
ghost use Rattle.hk_sheet.specs.Faults.{first_of, is_name_byte, is_name, counted, faults_of_names, faults_of_ticks, fault_of_arrivals, fault_of_geometry};
ghost use Rattle.hk_sheet.specs.Valid.{IsHeap};
ghost use Rattle.hk_sheet.specs.Raw.{raw_names, Fits64, IsFit, gap_with, gap_fault, script_fault, high_with, low_with, highs_among, lows_among, sheet_of_raw, judged_fault};
ghost use Rattle.hk_sheet.specs.Code.{Checks, Gives};

use crate::SheetError;
use crate::arrivals::Arrivals;
use crate::raw::{RawSheet, RawTask};
use crate::sheet::{High, Highs, Low, Lows, MAX_NAME, Name, Sheet};
use std::alloc::{AllocError, Global};
use std::collections::BTreeSet;

/// Whether a byte may stand in a name behind the first.
fn is_name_byte(byte: u8) -> bool
    ensures { result ≡ is_name_byte byte }
{
    byte.is_ascii_lowercase() || byte.is_ascii_digit() || byte == b'_'
}

/// Whether all of the bytes may.
fn are_name_bytes(bytes: &[u8]) -> bool
    ensures { result ≡ list_all is_name_byte bytes.now }
{
    bytes.iter().all(|byte| is_name_byte(*byte))
}

/// Whether the bytes are a name.
fn is_name(bytes: &[u8]) -> bool
    ensures { result ≡ is_name bytes.now }
{
    let Some((first, rest)) = bytes.split_first() else {
        return false;
    };
    first.is_ascii_lowercase() && are_name_bytes(rest) && bytes.len() <= MAX_NAME
}

/// A count as an error shows it.
fn counted(number: u64) -> u32
    ensures { result ≡ counted number }
{
    number.min(u32::MAX.into()) as u32
}

/// Checks that the name of each task is one, and none that stands before.
fn check_names(alloc: Global, tasks: &[RawTask]) -> Result<(), SheetError>
    ensures { Checks (first_of (faults_of_names [] 0 (raw_names tasks.now))) result }
{
    let mut earlier = BTreeSet::new(alloc);
    for (index, task) in tasks.iter().enumerate() {
        let name = task.name.items.as_slice();
        if !is_name(name) || !earlier.insert(name)? {
            return Err(SheetError::Name(counted(index as u64)));
        }
    }
    Ok(())
}

/// A name once more.
fn again(alloc: Global, name: &Name) -> Result<Name, AllocError>
    ensures { IfOk result (λ again. again ≡ name.now) }
{
    let items = Vec::from_slice(alloc, &name.items)?;
    Ok(Name { items })
}

/// Checks that ticks are a gap apart.
fn check_ticks(alloc: Global, task: &Name, gap: u64, ticks: &[u64]) -> Result<(), SheetError>
    ensures { Checks (first_of (faults_of_ticks task.now gap 1 ticks.now)) result }
{
    let mut place: u64 = 1;
    let mut rest = ticks;
    while let [earlier, later, ..] = rest {
        if *later < *earlier || *later - *earlier < gap {
            return Err(SheetError::Arrivals {
                task: again(alloc, task)?,
                place: counted(place),
                earlier: *earlier,
                later: *later,
            });
        }
        place += 1;
        rest = &rest[1..];
    }
    Ok(())
}

/// Checks that the jobs of a periodic task are a gap apart.
#[tactic(auto, unfolding(crate::specs::Faults::fault_of_arrivals))]
fn check_step(alloc: Global, task: &Name, gap: u64, first: u64, step: u64) -> Result<(), SheetError>
    requires { first + step < 2 ^ 64 }
    ensures { Checks (fault_of_arrivals task.now gap (Every first step)) result }
{
    if step < gap {
        return Err(SheetError::Arrivals {
            task: again(alloc, task)?,
            place: 1,
            earlier: first,
            later: first + step,
        });
    }
    Ok(())
}

/// Checks that the arrivals of a task are a gap apart.
#[tactic(auto, unfolding(crate::specs::Faults::fault_of_arrivals))]
fn check_gaps(alloc: Global, task: &Name, gap: u64, arrivals: &Arrivals) -> Result<(), SheetError>
    requires { Fits64 arrivals.now }
    ensures { Checks (fault_of_arrivals task.now gap arrivals.now) result }
{
    match arrivals {
        Arrivals::List(ticks) => check_ticks(alloc, task, gap, &ticks.items),
        Arrivals::Every { first, step } => check_step(alloc, task, gap, *first, *step),
    }
}

/// How far apart the arrivals of a task are at least: its period, or one tick.
fn gap(task: &RawTask) -> u64
    ensures { result ≡ gap_with task.now.times }
{
    match &task.times {
        Some(times) => times.timing.period,
        None => 1,
    }
}

/// Checks that the arrivals of each task are its gap apart.
fn check_all_gaps(alloc: Global, tasks: &[RawTask]) -> Result<(), SheetError>
    requires { All IsFit tasks.now }
    ensures { Checks (first_of (map gap_fault tasks.now)) result }
{
    for task in tasks {
        check_gaps(alloc, &task.name, gap(task), &task.arrivals)?;
    }
    Ok(())
}

/// Adds a task, of which the script is judged, to the high ones or the low ones.
fn add_task(highs: &mut Vec<High>, lows: &mut Vec<Low>, task: RawTask) -> Result<(), SheetError>
    ensures fault { Checks (script_fault task) result }
    ensures highs { IfOk result (λ _. highs.new.items ≡ highs.old.items ++ high_with task task.times) }
    ensures lows { IfOk result (λ _. lows.new.items ≡ lows.old.items ++ low_with task task.times) }
{
    let RawTask {
        name,
        times,
        arrivals,
        script,
    } = task;
    let script = match script {
        Ok(script) => script,
        Err(error) => return Err(SheetError::Script(name, error)),
    };
    match times {
        Some(times) => highs.push(High {
            name,
            timing: times.timing,
            words: times.words,
            lag: times.lag,
            arrivals,
            script,
        })?,
        None => lows.push(Low {
            name,
            arrivals,
            script,
        })?,
    }
    Ok(())
}

/// The high tasks and the low ones among some, of which the scripts are judged.
fn judged_tasks(alloc: Global, tasks: Vec<RawTask>) -> Result<(Highs, Lows), SheetError>
    ensures { Gives (first_of (map script_fault tasks.items)) (highs_among tasks.items, lows_among tasks.items) result }
{
    let mut highs = Vec::new(alloc);
    let mut lows = Vec::new(alloc);
    for task in tasks {
        add_task(&mut highs, &mut lows, task)?;
    }
    Ok((Highs { items: highs }, Lows { items: lows }))
}

/// Checks that the heap and the tasks of a sheet are a geometry.
#[tactic(auto, unfolding(crate::specs::Faults::fault_of_geometry))]
fn check_geometry(sheet: &Sheet) -> Result<(), SheetError>
    requires { IsHeap sheet.now.heap }
    ensures { Checks (fault_of_geometry sheet.now) result }
{
    match sheet.try_geometry() {
        Ok(_) => Ok(()),
        Err(error) => Err(SheetError::Geometry(error)),
    }
}

/// The sheet that the tables say, or the first fault of what is judged of it.
#[tactic(auto, unfolding(crate::specs::Raw::judged_fault))]
pub(crate) fn judged(alloc: Global, raw: RawSheet) -> Result<Sheet, SheetError>
    requires right { IsHeap raw.heap }
    requires fit { All IsFit raw.tasks.items }
    ensures { Gives (judged_fault raw) (sheet_of_raw raw) result }
{
    check_names(alloc, &raw.tasks)?;
    check_all_gaps(alloc, &raw.tasks)?;
    let (high, low) = judged_tasks(alloc, raw.tasks)?;
    let sheet = Sheet {
        ticks: raw.ticks,
        heap: raw.heap,
        high,
        low,
    };
    check_geometry(&sheet)?;
    Ok(sheet)
}
