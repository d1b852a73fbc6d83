//! The work that is due within a time, and the first time at which it is too much.

ghost use Rattle.std.specs.Prelude.{◌≡◌, ℕ, ◌<◌, ◌≤◌, ◌^◌, ◌↔◌, length, slice_index, All, IfSome, IsNone};
ghost use Rattle.hk_rta.specs.Demand.{IsTimed};
ghost use Rattle.hk_rta.specs.Least.{IsLeast};
ghost use Rattle.hk_rta.specs.declared.TheConstants.{MAX_TASKS, MAX_TICKS};
ghost use Rattle.hk_edf.specs.Due.{due_of, due, FitsUpTo};
ghost use Rattle.hk_edf.specs.Points.{passed, added_below, HasPoints, IsOver};

use hk_rta::{MAX_TASKS, Timing};

/// The work that is due within `t` ticks, where each task's jobs arrive at 0 and at every period and take the whole cost.
pub fn demand(tasks: &[Timing], t: u64) -> u64
    requires few { length tasks.now ≤ MAX_TASKS }
    requires timed { All IsTimed tasks.now }
    requires time { t ≤ MAX_TICKS }
    ensures { result ≡ due tasks.now t }
{
    let mut sum = 0;
    for task in tasks {
        sum += due_by(task, t);
    }
    sum
}

/// The same of one task.
fn due_by(task: &Timing, t: u64) -> u64
    requires timed { IsTimed task.now }
    requires time { t ≤ MAX_TICKS }
    ensures value { result ≡ due_of t task.now }
    ensures few { result ≤ 2 ^ 49 }
{
    if task.deadline <= t {
        ((t - task.deadline) / task.period + 1) * task.cost
    } else {
        0
    }
}

/// The least time from 1 to `last` at which more is due than there are ticks.
pub fn first_over(tasks: &[Timing], last: u64) -> Option<u64>
    requires few { length tasks.now ≤ MAX_TASKS }
    requires timed { All IsTimed tasks.now }
    requires last { last ≤ MAX_TICKS }
    ensures found { IfSome result (λ t. IsLeast (IsOver tasks.now last) t) }
    ensures none { IsNone result ↔ FitsUpTo tasks.now last }
{
    let mut next = first_points(tasks);
    let mut sum = 0;
    let mut t = lowest(&next, last + 1);
    while t <= last {
        sum += pass(tasks, &mut next, t);
        if sum > t {
            return Some(t);
        }
        t = lowest(&next, last + 1);
    }
    None
}

/// The first moment at which a job of each task is due; a moment that never comes where there is no task.
fn first_points(tasks: &[Timing]) -> [u64; MAX_TASKS]
    requires few { length tasks.now ≤ MAX_TASKS }
    requires timed { All IsTimed tasks.now }
    ensures { HasPoints tasks.now result 0 }
{
    let mut next = [u64::MAX; MAX_TASKS];
    for place in 0..tasks.len() {
        next[place] = tasks[place].deadline;
    }
    next
}

/// Passes the moment `t`: moves on each point that stands there, and answers the cost of these tasks.
fn pass(tasks: &[Timing], next: &mut [u64; MAX_TASKS], t: u64) -> u64
    requires few { length tasks.now ≤ MAX_TASKS }
    requires timed { All IsTimed tasks.now }
    requires time { t ≤ MAX_TICKS }
    ensures all_places { length next.new ≡ MAX_TASKS }
    ensures points { (k : ℕ) → k < MAX_TASKS → slice_index next.new k ≡ passed tasks.now next.old t k }
    ensures added { result ≡ added_below tasks.now next.old t (length tasks.now) }
    ensures few { result ≤ 2 ^ 29 }
{
    let mut added = 0;
    for place in 0..tasks.len() {
        let point = next[place];
        if point == t {
            next[place] = point + tasks[place].period;
            added += tasks[place].cost;
        }
    }
    added
}

/// The lowest of the points and `most`.
fn lowest(next: &[u64; MAX_TASKS], most: u64) -> u64
    ensures no_more { result ≤ most }
    ensures least { (k : ℕ) → k < MAX_TASKS → result ≤ slice_index next.now k }
    ensures above { (t : ℕ) → t < most → ((k : ℕ) → k < MAX_TASKS → t < slice_index next.now k) → t < result }
{
    let mut low = most;
    for point in next {
        if *point < low {
            low = *point;
        }
    }
    low
}
