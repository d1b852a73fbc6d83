//! The response times of the high tasks.

ghost use Rattle.std.specs.Prelude.{◌≡◌, ◌<◌, ◌≤◌, All, IfOk, MatchResult, length};
ghost use Rattle.hk_admit.specs.Analysis.{timings_of};
ghost use Rattle.hk_admit.specs.Conditions.{AreResponses};
ghost use Rattle.hk_admit.specs.Parts.{IsLateRefusal};
ghost use Rattle.hk_admit.specs.Ranges.{IsInRange};

use crate::declared::name_of;
use crate::refused::Refused;
use hk_rta::{Timing, next_response};
use hk_sheet::{High, Ticks};
use std::alloc::{AllocError, Global};

/// The times of the high tasks.
fn timings(alloc: Global, tasks: &[High]) -> Result<Vec<Timing>, AllocError>
    ensures { IfOk result (λ v. v.items ≡ timings_of tasks.now) }
{
    tasks.iter().map(|task| task.timing).collect(alloc)
}

/// The response time of each high task, or the first that has none within its deadline.
pub(crate) fn responses(alloc: Global, tasks: &[High]) -> Result<Ticks, Refused>
    requires few { length tasks.now ≤ 31 }
    requires tasks { All IsInRange tasks.now }
    ensures { MatchResult result (λ responses. AreResponses (timings_of tasks.now) responses) (λ refused. IsLateRefusal tasks.now refused) }
{
    let timings = timings(alloc, tasks)?;
    let mut items = Vec::new(alloc);
    for task in tasks {
        match next_response(&timings, &items) {
            Some(ticks) => items.push(ticks)?,
            None => return Err(Refused::Response(name_of(alloc, &task.name)?)),
        }
    }
    Ok(Ticks { items })
}
