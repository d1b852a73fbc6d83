//! The two checks of a sheet: of its heap alone, and of all.

ghost use Rattle.std.specs.Prelude.{◌≡◌, MatchResult};
ghost use Rattle.hk_sheet.specs.Valid.{IsSheet};
ghost use Rattle.hk_admit.specs.Conditions.{KeepsToDeclared};
ghost use Rattle.hk_admit.specs.Refusals.{IsHeapRefusal, IsRefusal};

use crate::checked::{Admitted, Checked};
use crate::declared::check_declared;
use crate::numbers::{
    attempt_events, busy, cycle_work, events_in_reserve, events_outside, most_owed,
};
use crate::refused::Refused;
use crate::responses::responses;
use hk_sheet::Sheet;
use std::alloc::Global;

/// Looks at the heap of a sheet whose high tasks keep to what they declare.
fn check_room(alloc: Global, sheet: Sheet) -> Result<Checked, Refused>
    requires readable { IsSheet sheet }
    requires declared { KeepsToDeclared sheet.high }
    ensures { MatchResult result (λ checked. checked.sheet ≡ sheet) (λ refused. IsHeapRefusal sheet refused) }
{
    let attempt = attempt_events(&sheet);
    let Some(busy) = busy(alloc, &sheet, attempt)? else {
        return Err(Refused::Busy);
    };
    let have = events_outside(&sheet);
    let work = cycle_work(&sheet);
    if have < work {
        return Err(Refused::Rate { have, need: work });
    }
    let have = events_in_reserve(&sheet);
    let debt = most_owed(&sheet, attempt, busy);
    if have < debt {
        return Err(Refused::Reserve { have, need: debt });
    }
    Ok(Checked {
        sheet,
        work,
        attempt,
        busy,
        debt,
    })
}

/// Looks at a sheet, but for the response times of its high tasks.
///
/// It is `Ok` exactly where each high task keeps to the ticks and the words that it declares, there is a busy period, the
/// collector ends a cycle in time, and the reserve lasts. Otherwise the error is the first of these that fails, in the
/// order of [`Refused`], or [`Refused::Memory`], which may come at any sheet.
pub fn check_heap(alloc: Global, sheet: Sheet) -> Result<Checked, Refused>
    requires { IsSheet sheet }
    ensures { MatchResult result (λ checked. checked.sheet ≡ sheet) (λ refused. IsHeapRefusal sheet refused) }
{
    check_declared(alloc, &sheet.high.items)?;
    check_room(alloc, sheet)
}

/// Looks at a sheet: it is admitted exactly where the heap's check is `Ok` and each high task's response time is at most
/// its deadline. Otherwise the error is the first that fails, in the order of [`Refused`], or [`Refused::Memory`], which
/// may come at any sheet.
pub fn admit(alloc: Global, sheet: Sheet) -> Result<Admitted, Refused>
    requires { IsSheet sheet }
    ensures { MatchResult result (λ admitted. admitted.checked.sheet ≡ sheet) (λ refused. IsRefusal sheet refused) }
{
    check_declared(alloc, &sheet.high.items)?;
    let responses = responses(alloc, &sheet.high.items)?;
    let checked = check_room(alloc, sheet)?;
    Ok(Admitted { checked, responses })
}
