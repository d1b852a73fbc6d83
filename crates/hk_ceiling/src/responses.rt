//! The response times with room for a section of a later task.
ghost use Rattle.std.specs.Prelude.{◌≡◌, ℕ, ◌+◌, ◌<◌, ◌≤◌, ◌↔◌, List, All, length, take, slice_set, IfSome, IsNone};
ghost use Rattle.hk_rta.specs.Demand.{IsTimed, period_at, deadline_at};
ghost use Rattle.hk_rta.specs.declared.TheConstants.{MAX_TASKS};
ghost use Rattle.hk_ceiling.specs.Bounds.{AreStill, Response, IsLate};

use crate::ceilings::{TaskSection, block};
use hk_rta::{MAX_TASKS, Timing};

/// The tasks with another cost at one place.
fn raised(tasks: &[Timing], i: usize, cost: u64) -> [Timing; MAX_TASKS]
    requires within { i < length tasks.now }
    requires few { length tasks.now ≤ MAX_TASKS }
    ensures { take (length tasks.now) result ≡ slice_set tasks.now i (record { cost = cost; period = period_at tasks.now i; deadline = deadline_at tasks.now i; jitter = 0 }) }
{
    let task = tasks[i];
    let mut all = [task; MAX_TASKS];
    all[..tasks.len()].copy_from_slice(tasks);
    all[i] = Timing {
        cost,
        jitter: 0,
        ..task
    };
    all
}

/// The response time of the task at a place, with room for one section of a later task.
pub fn response(tasks: &[Timing], sections: &[TaskSection], i: usize) -> Option<u64>
    requires within { i < length tasks.now }
    requires few { length tasks.now ≤ MAX_TASKS }
    requires timed { All IsTimed tasks.now }
    requires still { AreStill tasks.now }
    ensures found { IfSome result (λ r. Response tasks.now sections.now i r) }
    ensures in_time { IfSome result (λ r. r ≤ deadline_at tasks.now i) }
    ensures none { IsNone result ↔ IsLate tasks.now sections.now i }
{
    let task = tasks[i];
    let cost = task.cost + block(sections, i as u8) as u64;
    if cost > task.deadline {
        return None;
    }
    let all = raised(tasks, i, cost);
    hk_rta::response(&all[..tasks.len()], i)
}
