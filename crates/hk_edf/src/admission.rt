//! The admission of a sheet whose high jobs are to go by earliest deadlines.

ghost use Rattle.std.specs.Prelude.{◌≡◌, false, MatchResult, IfOk};
ghost use Rattle.std.specs.List.{list_any};
ghost use Rattle.hk_sheet.specs.Valid.{IsSheet};
ghost use Rattle.hk_admit.specs.Analysis.{timings_of};
ghost use Rattle.hk_edf.specs.Refusals.{has_jitter, MeetsDemand, IsEdfRefusal, IsJitterRefusal};

use crate::due::first_over;
use crate::refused::EdfRefused;
use hk_admit::{Checked, Refused, check_heap};
use hk_rta::Timing;
use hk_sheet::{High, Name, Sheet};
use std::alloc::{AllocError, Global};

/// A copy of a name.
fn name_of(alloc: Global, name: &Name) -> Result<Name, AllocError>
    ensures { IfOk result (λ copy. copy ≡ name.now) }
{
    Ok(Name {
        items: Vec::from_slice(alloc, &name.items)?,
    })
}

/// The times of the high tasks.
fn timings(alloc: Global, tasks: &[High]) -> Result<Vec<Timing>, AllocError>
    ensures { IfOk result (λ v. v.items ≡ timings_of tasks.now) }
{
    tasks.iter().map(|task| task.timing).collect(alloc)
}

/// Looks for the first high task with a jitter.
fn check_jitter(alloc: Global, tasks: &[High]) -> Result<(), EdfRefused>
    ensures { MatchResult result (λ _. list_any has_jitter tasks.now ≡ false) (λ refused. IsJitterRefusal tasks.now refused) }
{
    for task in tasks {
        if task.timing.jitter > 0 {
            return Err(EdfRefused::Jitter(name_of(alloc, &task.name)?));
        }
    }
    Ok(())
}

/// Looks at what is due up to the length of the busy period, where no high task has a jitter.
fn check_due(alloc: Global, checked: Checked) -> Result<Checked, EdfRefused>
    requires { list_any has_jitter checked.sheet.high ≡ false }
    ensures { MatchResult result (λ c. (c.sheet ≡ checked.sheet) × MeetsDemand checked.sheet c.busy) (λ refused. IsEdfRefusal checked.sheet refused) }
{
    let timings = timings(alloc, &checked.sheet.high.items)?;
    match first_over(&timings, checked.busy) {
        Some(t) => Err(EdfRefused::Demand(t)),
        None => Ok(checked),
    }
}

/// Looks at the high tasks of a sheet whose heap was checked.
fn check_tasks(alloc: Global, checked: Checked) -> Result<Checked, EdfRefused>
    ensures { MatchResult result (λ c. (c.sheet ≡ checked.sheet) × MeetsDemand checked.sheet c.busy) (λ refused. IsEdfRefusal checked.sheet refused) }
{
    check_jitter(alloc, &checked.sheet.high.items)?;
    check_due(alloc, checked)
}

/// Looks at a sheet whose high jobs are to go by earliest deadlines.
///
/// It is `Ok` exactly where the check of the heap is, no high task has a jitter, and at no time from 1 to the length of the
/// busy period is more due than there are ticks. Otherwise the error is the first of these that fails, in the order of
/// [`EdfRefused`], or [`EdfRefused::Memory`], which may come at any sheet.
pub fn admit_edf(alloc: Global, sheet: Sheet) -> Result<Checked, EdfRefused>
    requires { IsSheet sheet }
    ensures { MatchResult result (λ c. (c.sheet ≡ sheet) × MeetsDemand sheet c.busy) (λ refused. IsEdfRefusal sheet refused) }
{
    match check_heap(alloc, sheet) {
        Ok(checked) => check_tasks(alloc, checked),
        Err(Refused::Memory) => Err(EdfRefused::Memory),
        Err(refused) => Err(EdfRefused::Heap(refused)),
    }
}
