//! Places are given from the last to the first.
ghost use Rattle.std.specs.Prelude.{◌≡◌, ◌≢◌, ℕ, ◌<◌, ◌≤◌, ◌↔◌, [], ◌∷◌, ◌++◌, All, take, drop, length, slice_index, IsTrue, MatchOption};
ghost use Rattle.std.specs.List.{remove, range_with_len};
ghost use Rattle.hk_rta.specs.Demand.{IsTimed};
ghost use Rattle.hk_assign.specs.Orders.{in_order, KeepsDeadlines};
ghost use Rattle.hk_assign.specs.Assignment.{TakesGreatest, IsStuck};
ghost use Rattle.hk_assign.specs.Placing.{FitsAt, IsLastFit, NoneFits};

use hk_rta::{MAX_TASKS, Timing, response};

/// A task that stands for none.
pub(crate) const NO_TIMING: Timing = Timing {
    cost: 1,
    period: 1,
    deadline: 1,
    jitter: 0,
};

/// The timings of some tasks, in their order.
fn row(timings: &[Timing], tasks: &[u8]) -> [Timing; MAX_TASKS]
    requires few { length tasks.now ≤ 31 }
    requires tasks { All (λ task. task < length timings.now) tasks.now }
    ensures { take (length tasks.now) result ≡ in_order timings.now tasks.now }
{
    let mut row = [NO_TIMING; MAX_TASKS];
    for (place, task) in tasks.iter().enumerate() {
        row[place] = timings[usize::from(*task)];
    }
    row
}

/// Whether the task at a place is in time where the others go before it.
fn fits_at(timings: &[Timing], free: &[u8], place: usize) -> bool
    requires timed { All IsTimed timings.now }
    requires few { length free.now ≤ 31 }
    requires tasks { All (λ task. task < length timings.now) free.now }
    requires within { place < length free.now }
    ensures { IsTrue result ↔ FitsAt timings.now free.now place }
{
    let mut row = row(timings, free);
    let row = &mut row[..free.len()];
    row[place..].rotate_left(1);
    response(row, free.len() - 1).is_some()
}

/// The last place whose task is in time where the others go before it.
fn last_fit(timings: &[Timing], free: &[u8]) -> Option<usize>
    requires timed { All IsTimed timings.now }
    requires few { length free.now ≤ 31 }
    requires tasks { All (λ task. task < length timings.now) free.now }
    ensures { MatchOption result (NoneFits timings.now free.now) (IsLastFit timings.now free.now) }
{
    let mut place = free.len();
    while place > 0 {
        place -= 1;
        if fits_at(timings, free, place) {
            return Some(place);
        }
    }
    None
}

/// Moves the task at a place behind all the others.
fn to_the_end(free: &mut [u8], place: usize)
    requires { place < length free.old }
    ensures { free.new ≡ remove free.old place ++ slice_index free.old place ∷ [] }
{
    free[place..].rotate_left(1);
}

/// Puts tasks, which stand in the order of their indices, into the order that the rule gives, and answers how many of them
/// are left where no place is given any more.
pub(crate) fn place_all(timings: &[Timing], order: &mut [u8]) -> usize
    requires few { length timings.now ≤ 31 }
    requires timed { All IsTimed timings.now }
    requires tasks { order.old ≡ range_with_len 0 (length timings.now) }
    ensures length { length order.new ≡ length order.old }
    ensures left { result ≤ length order.old }
    ensures keeps { result ≡ 0 → KeepsDeadlines timings.now order.new }
    ensures greatest { result ≡ 0 → TakesGreatest timings.now order.new }
    ensures stuck { result ≢ 0 → IsStuck timings.now (take result order.new) }
{
    let mut free = order.len();
    while free > 0 {
        let Some(place) = last_fit(timings, &order[..free]) else {
            return free;
        };
        to_the_end(&mut order[..free], place);
        free -= 1;
    }
    free
}
