//! The tasks of a sheet, as their workers see them.
ghost use Rattle.std.specs.Prelude.{◌≡◌, ◌≤◌, ◌<◌, ◌^◌, ◌*◌, length, slice_index_or, filter, nat_lt, false};
ghost use Rattle.hk_script.specs.Cost.{told, greatest_ticks};
ghost use Rattle.hk_sheet.specs.declared.sheet.High.{High};
ghost use Rattle.hk_sheet.specs.declared.sheet.Low.{Low};
ghost use Rattle.hk_sheet.specs.Valid.{AreArrivals, IsSheet};
ghost use Rattle.hk_sheet.specs.declared.sheet.TheConstants.{MAX_TICKS, MAX_NAME};
ghost use Rattle.hk_race.specs.Tasks.{jobs_before, long_by, is_long, of_high, of_low, tasks_of, task_at, HasNoLong};
ghost use Rattle.hk_race.specs.Shown.{shown, IsHeld};
ghost use Rattle.hk_race.specs.declared.desk.TheConstants.{MOST_CALLS};

use hk_script::{Script, cost};
use hk_sheet::{Arrivals, High, Low, Sheet};

/// A task that isn't long: its name, its script, how many jobs it has, and the ticks that one of them costs at most.
#[derive(Clone, Copy)]
pub(crate) struct Held<'a> {
    pub name: &'a [u8],
    pub script: &'a Script,
    pub jobs: u64,
    pub cost: u64,
}

/// How many ticks are before the horizon.
#[tactic(auto, using(crate::proofs::Going::length_filter))]
fn count_below(ticks: &[u64], horizon: u64) -> u64
    ensures count { result ≡ length (filter (λ tick. nat_lt tick horizon) ticks.now) }
    ensures few { result ≤ length ticks.now }
{
    ticks.iter().filter(|tick| **tick < horizon).count() as u64
}

/// How many jobs arrive before the horizon.
#[tactic(auto, unfolding(crate::specs::Tasks::jobs_before))]
pub(crate) fn jobs_before(horizon: u64, arrivals: &Arrivals, gap: u64) -> u64
    requires few { horizon ≤ MAX_TICKS }
    requires arrivals { AreArrivals horizon gap arrivals.now }
    ensures jobs { result ≡ jobs_before horizon arrivals.now }
    ensures few { result ≤ MAX_TICKS }
{
    match arrivals {
        Arrivals::Every { first, step } => horizon.saturating_sub(*first).div_ceil(*step),
        Arrivals::List(ticks) => count_below(&ticks.items, horizon),
    }
}

/// A task that isn't long.
fn task_of<'a>(
    horizon: u64,
    name: &'a [u8],
    arrivals: &Arrivals,
    gap: u64,
    script: &'a Script,
) -> Held<'a>
    requires few { horizon ≤ MAX_TICKS }
    requires arrivals { AreArrivals horizon gap arrivals.now }
    requires short { long_by (jobs_before horizon arrivals.now) (told (greatest_ticks script.now)) ≡ false }
    ensures name { result.name.now ≡ name.now }
    ensures script { result.script.now ≡ script.now }
    ensures jobs { result.jobs ≡ jobs_before horizon arrivals.now }
    ensures cost { result.cost ≡ greatest_ticks script.now }
    ensures fewer { result.jobs < 2 ^ 32 }
    ensures fit { result.jobs * result.cost ≤ MOST_CALLS }
{
    let jobs = jobs_before(horizon, arrivals, gap);
    let Some(cost) = cost(script) else {
        unreachable!();
    };
    Held {
        name,
        script,
        jobs,
        cost,
    }
}

/// A high task that isn't long.
fn high_task(ticks: u64, task: &High) -> Held<'_>
    requires few { ticks ≤ MAX_TICKS }
    requires arrivals { AreArrivals ticks task.now.timing.period task.now.arrivals }
    requires short { is_long (of_high ticks task.now) ≡ false }
    ensures shown { shown result ≡ of_high ticks task.now }
    ensures cost { result.cost ≡ greatest_ticks task.now.script }
    ensures jobs { result.jobs < 2 ^ 32 }
    ensures few { result.jobs * result.cost ≤ MOST_CALLS }
{
    let gap = task.timing.period;
    task_of(ticks, &task.name.items, &task.arrivals, gap, &task.script)
}

/// A low task that isn't long.
fn low_task(ticks: u64, task: &Low) -> Held<'_>
    requires few { ticks ≤ MAX_TICKS }
    requires arrivals { AreArrivals ticks 1 task.now.arrivals }
    requires short { is_long (of_low ticks task.now) ≡ false }
    ensures shown { shown result ≡ of_low ticks task.now }
    ensures cost { result.cost ≡ greatest_ticks task.now.script }
    ensures jobs { result.jobs < 2 ^ 32 }
    ensures few { result.jobs * result.cost ≤ MOST_CALLS }
{
    task_of(ticks, &task.name.items, &task.arrivals, 1, &task.script)
}

/// The ticks of a run.
pub(crate) fn ticks(sheet: &Sheet) -> u64
    ensures { result ≡ sheet.now.ticks }
{
    sheet.ticks
}

/// How many high tasks there are.
pub(crate) fn high_count(sheet: &Sheet) -> usize
    ensures { result ≡ length sheet.now.high }
{
    sheet.high.items.len()
}

/// How many low tasks there are.
pub(crate) fn low_count(sheet: &Sheet) -> usize
    ensures { result ≡ length sheet.now.low }
{
    sheet.low.items.len()
}

/// A high task.
pub(crate) fn high_at(sheet: &Sheet, place: usize) -> &High
    requires { place < length sheet.now.high }
    ensures { (d : High) → slice_index_or sheet.now.high place d ≡ result.now }
{
    &sheet.high.items[place]
}

/// A low task.
pub(crate) fn low_at(sheet: &Sheet, place: usize) -> &Low
    requires { place < length sheet.now.low }
    ensures { (d : Low) → slice_index_or sheet.now.low place d ≡ result.now }
{
    &sheet.low.items[place]
}

/// The task of a seat.
pub(crate) fn task_at(sheet: &Sheet, seat: usize) -> Held<'_>
    requires sheet { IsSheet sheet.now }
    requires seat { seat < length (tasks_of sheet.now) }
    requires short { HasNoLong sheet.now }
    ensures shown { shown result ≡ task_at sheet.now seat }
    ensures holds { IsHeld sheet.now.heap.registers result }
{
    let high = high_count(sheet);
    if seat < high {
        return high_task(ticks(sheet), high_at(sheet, seat));
    }
    low_task(ticks(sheet), low_at(sheet, seat - high))
}

/// The name of a high task.
fn high_name(task: &High) -> &[u8]
    ensures { result.now ≡ task.now.name }
{
    &task.name.items
}

/// The name of a low task.
fn low_name(task: &Low) -> &[u8]
    ensures { result.now ≡ task.now.name }
{
    &task.name.items
}

/// The name of the task of a seat.
pub(crate) fn name_at(sheet: &Sheet, seat: usize) -> &[u8]
    requires { seat < length (tasks_of sheet.now) }
    ensures { result.now ≡ (task_at sheet.now seat).name }
{
    let high = high_count(sheet);
    if seat < high {
        return high_name(high_at(sheet, seat));
    }
    low_name(low_at(sheet, seat - high))
}
