//! The tasks of a sheet by their seats, the high ones first.
ghost use Rattle.std.specs.Prelude.{◌≡◌, ◌<◌, ◌≤◌, length, IfOk};
ghost use Rattle.hk_dispatch.specs.Tasks.{tasks_of, task_at};
ghost use Rattle.hk_dispatch.specs.declared.tick.Tick.TheVariants.{Ran};
ghost use Rattle.hk_dispatch.specs.Told.{who_is};
ghost use Rattle.hk_dispatch.specs.TaskRuns.{task_of};
ghost use Rattle.hk_dispatch.specs.Opened.{ShowsStart};

use crate::run::{Done, Task, TaskRun};
use crate::tick::{Tick, Who};
use hk_sheet::Sheet;
use hk_words::Memory;
use std::alloc::Global;

/// The task of a seat.
pub(crate) fn task_at(sheet: &Sheet, seat: u8) -> Task<'_>
    requires { seat < length (tasks_of sheet.now) }
    ensures { task_of result ≡ task_at sheet.now seat }
{
    let high = &sheet.high.items;
    let place = seat as usize;
    if place < high.len() {
        Task::High(&high[place])
    } else {
        Task::Low(&sheet.low.items[place - high.len()])
    }
}

/// The task of a seat, by its place in its list of the sheet.
pub(crate) fn who_is(sheet: &Sheet, seat: u8) -> Who
    requires { length (tasks_of sheet.now) ≤ 31 }
    ensures { result ≡ who_is sheet.now seat }
{
    let high = sheet.high.items.len() as u8;
    if seat < high {
        Who::Hi(seat)
    } else {
        Who::Lo(seat - high)
    }
}

/// How many tasks there are.
fn count_of(sheet: &Sheet) -> u8
    requires { length (tasks_of sheet.now) ≤ 31 }
    ensures { result ≡ length (tasks_of sheet.now) }
{
    sheet.high.items.len() as u8 + sheet.low.items.len() as u8
}

/// The tasks of a sheet before the first tick.
pub(crate) fn start_all(alloc: Global, sheet: &Sheet) -> Result<Vec<TaskRun>, Memory>
    requires { length (tasks_of sheet.now) ≤ 31 }
    ensures { IfOk result (λ tasks. ShowsStart sheet.now tasks.items) }
{
    let mut tasks = Vec::new(alloc);
    for seat in 0..count_of(sheet) {
        tasks.push(TaskRun::start(task_at(sheet, seat)))?;
    }
    Ok(tasks)
}

/// What the tick of a seat answers.
pub(crate) fn tell(sheet: &Sheet, seat: u8, done: Done) -> Tick
    requires { length (tasks_of sheet.now) ≤ 31 }
    ensures { result ≡ Ran (who_is sheet.now seat) done.out done.end }
{
    Tick::Ran {
        who: who_is(sheet, seat),
        out: done.out,
        end: done.end,
    }
}
