//! Tasks that are too long for a pass.
ghost use Rattle.std.specs.Prelude.{◌≡◌, ◌≤◌, ◌<◌, length, MatchOption};
ghost use Rattle.hk_script.specs.Cost.{told, greatest_ticks};
ghost use Rattle.hk_sheet.specs.Valid.{AreArrivals, IsSheet};
ghost use Rattle.hk_sheet.specs.declared.sheet.TheConstants.{MAX_TICKS};
ghost use Rattle.hk_race.specs.Tasks.{jobs_before, long_by, is_long, of_high, of_low, tasks_of, task_at, HasNoLong, IsFirstLong};

use crate::desk::MOST_CALLS;
use crate::tasks::{high_at, high_count, jobs_before, low_at, low_count, ticks};
use hk_script::{Script, cost};
use hk_sheet::{Arrivals, High, Low, Sheet};

/// The jobs of a task could begin more calls than a pass has.
fn is_long(horizon: u64, arrivals: &Arrivals, gap: u64, script: &Script) -> bool
    requires few { horizon ≤ MAX_TICKS }
    requires arrivals { AreArrivals horizon gap arrivals.now }
    ensures { result ≡ long_by (jobs_before horizon arrivals.now) (told (greatest_ticks script.now)) }
{
    let jobs = jobs_before(horizon, arrivals, gap);
    match cost(script) {
        None => true,
        Some(ticks) => jobs * ticks > MOST_CALLS,
    }
}

/// A high task is long.
fn is_high_long(horizon: u64, task: &High) -> bool
    requires few { horizon ≤ MAX_TICKS }
    requires arrivals { AreArrivals horizon task.now.timing.period task.now.arrivals }
    ensures { result ≡ is_long (of_high horizon task.now) }
{
    is_long(horizon, &task.arrivals, task.timing.period, &task.script)
}

/// A low task is long.
fn is_low_long(horizon: u64, task: &Low) -> bool
    requires few { horizon ≤ MAX_TICKS }
    requires arrivals { AreArrivals horizon 1 task.now.arrivals }
    ensures { result ≡ is_long (of_low horizon task.now) }
{
    is_long(horizon, &task.arrivals, 1, &task.script)
}

/// The task of a seat is long.
fn is_long_at(sheet: &Sheet, seat: usize) -> bool
    requires sheet { IsSheet sheet.now }
    requires seat { seat < length (tasks_of sheet.now) }
    ensures { result ≡ is_long (task_at sheet.now seat) }
{
    let high = high_count(sheet);
    if seat < high {
        return is_high_long(ticks(sheet), high_at(sheet, seat));
    }
    is_low_long(ticks(sheet), low_at(sheet, seat - high))
}

/// The seat of the first task that is long, the high ones first: the cost of its script can't be told, or its jobs cost more
/// ticks together than a pass may begin calls. `compete` takes no such sheet.
#[tactic(auto, using(crate::proofs::Sheets::tasks_count))]
pub fn first_long(sheet: &Sheet) -> Option<usize>
    requires { IsSheet sheet.now }
    ensures { MatchOption result (HasNoLong sheet.now) (IsFirstLong sheet.now) }
{
    for seat in 0..high_count(sheet) + low_count(sheet) {
        if is_long_at(sheet, seat) {
            return Some(seat);
        }
    }
    None
}
