//! The order of some tasks.
ghost use Rattle.std.specs.Prelude.{◌≡◌, ℕ, ◌≤◌, List, All, IfOk, IfErr, length, take};
ghost use Rattle.std.specs.List.{range_with_len};
ghost use Rattle.hk_rta.specs.Demand.{IsTimed};
ghost use Rattle.hk_assign.specs.Orders.{KeepsDeadlines};
ghost use Rattle.hk_assign.specs.Assignment.{TakesGreatest, IsStuck};

use crate::order::{Order, Stuck};
use crate::placing::place_all;
use hk_rta::{MAX_TASKS, Timing};

/// So many indices, from 0 on.
pub(crate) fn indices(count: usize) -> [u8; MAX_TASKS]
    requires { count ≤ 31 }
    ensures { take count result ≡ range_with_len 0 count }
{
    let mut tasks = [0; MAX_TASKS];
    for place in 0..count {
        tasks[place] = place as u8;
    }
    tasks
}

/// An order in which each of the tasks has a response time that is at most its deadline, or a set of tasks because of
/// which there is none.
///
/// It is `Ok` exactly where there is such an order. The last place goes to the task with the greatest index of those that
/// are in time where all the others go before it, the place before it to the next such of the rest, and so on. Where no task
/// can take the place at some turn, those that are left are the error; each set of tasks of which none can be the last is
/// part of it.
pub fn assign(tasks: &[Timing]) -> Result<Order, Stuck>
    requires few { length tasks.now ≤ 31 }
    requires timed { All IsTimed tasks.now }
    ensures keeps { IfOk result (λ order. KeepsDeadlines tasks.now order) }
    ensures none { IfErr result (λ _. (order : List ℕ) → ¬ (KeepsDeadlines tasks.now order)) }
    ensures greatest { IfOk result (λ order. TakesGreatest tasks.now order) }
    ensures stuck { IfErr result (λ stuck. IsStuck tasks.now stuck) }
{
    let count = tasks.len();
    let mut order = indices(count);
    let left = place_all(tasks, &mut order[..count]);
    if left > 0 {
        return Err(Stuck::of(order, left));
    }
    Ok(Order::of(order, count))
}
