//! Response times of periodic tasks under fixed priorities, and the length of a busy period. Nothing here takes
//! memory.
#![tactic(auto)]

ghost use Rattle.std.specs.Prelude.{◌≡◌, ℕ, ◌+◌, ◌*◌, ◌<◌, ◌≤◌, ◌^◌, ◌-◌, length, min, slice_index, All, MatchOption, IfSome, IsNone, ◌↔◌};
ghost use Rattle.hk_rta.specs.Busy.{Busy, IsOverfull};
ghost use Rattle.hk_rta.specs.Demand.{IsTimed, IsLoad, starts_in, demand, work_in, deadline_at};
ghost use Rattle.hk_rta.specs.Response.{Solves, Response, IsLate};

mod ahead;
#[cfg(test)]
mod tests;

use ahead::{longer_of_loads, longer_of_tasks};

/// The most tasks, and the most loads, that an analysis takes.
pub const MAX_TASKS: usize = 31;

/// The greatest cost, period, deadline and length of a busy period, in ticks.
pub const MAX_TICKS: u64 = 16_777_216;

/// The most work that a load brings at one arrival, and that waits as a busy period begins, in ticks.
pub const MAX_WORK: u64 = 137_438_953_472;

/// What the analysis knows of a task, in ticks: the most that one of its jobs takes, the least time between two
/// arrivals, the time from an arrival by which the job is to end, and the most that passes from an arrival until the
/// job is ready.
#[derive(Clone, Copy, Debug, PartialEq, Eq)]
pub struct Timing {
    pub cost: u64,
    pub period: u64,
    pub deadline: u64,
    pub jitter: u64,
}

/// Work that comes again and again, in ticks: so much of it at each arrival, arrivals at least a period apart, and the
/// work at most `jitter` after its arrival.
#[derive(Clone, Copy, Debug, PartialEq, Eq)]
pub struct Load {
    pub period: u64,
    pub jitter: u64,
    pub work: u64,
}

/// The response time of task `i` in ticks, under fixed priorities and preemption, where the tasks before it go
/// first: its own jitter, and the least positive R that is its own cost and, for each task before it, the cost as
/// often as its period begins in R ticks and its jitter (M. Joseph and P. Pandya, Finding Response Times in a
/// Real-Time System, 1986; with jitter: N. Audsley, A. Burns, M. Richardson, K. Tindell and A. Wellings, Applying New
/// Scheduling Theory to Static Priority Pre-emptive Scheduling, 1993). None where the two together are above the
/// deadline of task `i`, or no such R is. It counts from the arrival, and bounds every job where no deadline is above
/// its period.
pub fn response(tasks: &[Timing], i: usize) -> Option<u64>
    requires within { i < length tasks.now }
    requires few { length tasks.now ≤ 31 }
    requires timed { All IsTimed tasks.now }
    ensures found { IfSome result (λ r. Response tasks.now i r) }
    ensures in_time { IfSome result (λ r. r ≤ deadline_at tasks.now i) }
    ensures none { IsNone result ↔ IsLate tasks.now i }
{
    response_from(tasks, i, 0)
}

/// The response time of the task that comes right after those whose response times are `earlier`: as [`response`] has it,
/// and found sooner. Without their jitters, it is at least that of the task before and its own cost, so the search begins
/// there.
pub fn next_response(tasks: &[Timing], earlier: &[u64]) -> Option<u64>
    requires within { length earlier.now < length tasks.now }
    requires few { length tasks.now ≤ 31 }
    requires timed { All IsTimed tasks.now }
    requires each { (j : ℕ) → j < length earlier.now → Response tasks.now j (slice_index earlier.now j) }
    requires in_time { (j : ℕ) → j < length earlier.now → slice_index earlier.now j ≤ deadline_at tasks.now j }
    ensures found { IfSome result (λ r. Response tasks.now (length earlier.now) r) }
    ensures in_time { IfSome result (λ r. r ≤ deadline_at tasks.now (length earlier.now)) }
    ensures none { IsNone result ↔ IsLate tasks.now (length earlier.now) }
{
    let i = earlier.len();
    let least = match earlier.last() {
        Some(ticks) => ticks - tasks[i - 1].jitter + tasks[i].cost,
        None => 0,
    };
    response_from(tasks, i, least)
}

/// The response time of task `i`, as [`response`] has it, where each length that solves its equation is known to be at
/// least `least`: the search begins there.
pub fn response_from(tasks: &[Timing], i: usize, least: u64) -> Option<u64>
    requires within { i < length tasks.now }
    requires few { length tasks.now ≤ 31 }
    requires timed { All IsTimed tasks.now }
    requires least { (r : ℕ) → Solves tasks.now i r → least ≤ r }
    ensures found { IfSome result (λ r. Response tasks.now i r) }
    ensures in_time { IfSome result (λ r. r ≤ deadline_at tasks.now i) }
    ensures none { IsNone result ↔ IsLate tasks.now i }
{
    let task = tasks[i];
    let longest = task.deadline.checked_sub(task.jitter)?;
    let before = &tasks[..i];
    let mut length = task.cost.max(least);
    let mut tried: u64 = 0;
    while length <= longest {
        let needed = task.cost + demand(before, length);
        if needed == length {
            return Some(length + task.jitter);
        }
        length = longer_of_tasks(before, task.cost, length, needed, tried);
        tried = tried.saturating_add(1);
    }
    None
}

/// The length of a busy period in ticks: the least window, from one tick to `cap`, in which there is room for `base`
/// ticks of work that wait as it begins and for the work that each load brings in it, at the arrivals in it and in the
/// load's jitter before. None where there is none.
pub fn busy(loads: &[Load], base: u64, cap: u64) -> Option<u64>
    requires few { length loads.now ≤ 31 }
    requires loads { All IsLoad loads.now }
    requires base { base ≤ 2 ^ 37 }
    requires cap { cap ≤ 2 ^ 24 }
    ensures found { IfSome result (λ x. Busy loads.now base x) }
    ensures in_time { IfSome result (λ x. x ≤ cap) }
    ensures none { IsNone result ↔ IsOverfull loads.now base cap }
{
    let mut length = base.max(1);
    let mut tried: u64 = 0;
    while length <= cap {
        let needed = base.saturating_add(work(loads, length));
        if needed <= length {
            return Some(length);
        }
        length = longer_of_loads(loads, base, length, needed, tried);
        tried = tried.saturating_add(1);
    }
    None
}

/// The work that jobs of the tasks bring which become ready in a window.
fn demand(tasks: &[Timing], window: u64) -> u64
    requires few { length tasks.now ≤ 31 }
    requires timed { All IsTimed tasks.now }
    requires window { window ≤ 2 ^ 24 }
    ensures value { result ≡ demand tasks.now window }
    ensures few { result ≤ 31 * 2 ^ 49 }
{
    let mut sum = 0;
    for task in tasks {
        sum += starts(window + task.jitter, task.period) * task.cost;
    }
    sum
}

/// The work that the loads bring in a window, or [`u64::MAX`] where it is more.
fn work(loads: &[Load], window: u64) -> u64
    requires loads { All IsLoad loads.now }
    requires window { window ≤ 2 ^ 24 }
    ensures { result ≡ min (work_in loads.now window) (2 ^ 64 - 1) }
{
    let mut sum: u64 = 0;
    for load in loads {
        let arrivals = starts(window + load.jitter, load.period);
        sum = sum.saturating_add(arrivals * load.work);
    }
    sum
}

/// How often a period can begin in a window. It divides only where that can be more than once, since a division takes
/// long.
fn starts(window: u64, period: u64) -> u64
    requires { 1 ≤ period }
    ensures { result ≡ starts_in window period }
{
    if window <= period {
        window.min(1)
    } else {
        window.div_ceil(period)
    }
}
