//! How far a search of a window may go at once: the least window that can hold what comes often by its share of the time, and
//! the rest by its starts so far.
ghost use Rattle.std.specs.Prelude.{◌≡◌, ℕ, ◌+◌, ◌*◌, ◌≤◌, ◌^◌, length, All};
ghost use Rattle.hk_rta.specs.Ahead.{Holds};
ghost use Rattle.hk_rta.specs.Demand.{IsTimed, IsLoad, demand, work_of, work_in};

use crate::{Load, MAX_TICKS, Timing, starts};

/// How many windows a search tries one after another before it looks ahead, which takes longer than a window.
const PATIENCE: u64 = 32;

/// The whole of the time, in shares.
const WHOLE: u64 = 1 << 32;

/// What a window has to hold: so many ticks of work, and a share of the window, of which 2^32 are the whole.
#[derive(Clone, Copy)]
pub(crate) struct Need {
    ticks: u64,
    share: u64,
}

impl Need {
    /// Adds a load: by its share of the time where its period is at most `fast`, else by its starts in a window.
    fn add(&mut self, load: Load, window: u64, fast: u64)
        requires load { IsLoad load }
        requires window { window ≤ 2 ^ 24 }
        requires room { self.old.share ≤ 31 * 2 ^ 32 }
        ensures share { self.new.share ≤ self.old.share + 2 ^ 32 }
        ensures holds { (x total : ℕ) → window ≤ x → Holds self.old x total → Holds self.new x (total + work_of x load) }
    {
        if load.period <= fast {
            self.share += share(load.work, load.period);
        } else {
            let work = starts(window + load.jitter, load.period) * load.work;
            self.ticks = self.ticks.saturating_add(work);
        }
    }

    /// The least window that can hold it, or one that is less.
    fn least(self) -> u64
        ensures { (x : ℕ) → Holds self x x → result ≤ x }
    {
        if self.share >= WHOLE || self.ticks > MAX_TICKS {
            self.ticks
        } else {
            (self.ticks * WHOLE).div_ceil(WHOLE - self.share)
        }
    }
}

/// The share of the time that so much work takes at least which comes once a period, or the whole of it.
fn share(work: u64, period: u64) -> u64
    requires some { 1 ≤ period }
    requires few { period ≤ 2 ^ 24 }
    ensures within { result ≤ 2 ^ 32 }
    ensures part { result * period ≤ work * 2 ^ 32 }
{
    if work >= period {
        WHOLE
    } else {
        work * WHOLE / period
    }
}

/// What a window has to hold of the jobs of tasks, beside `own` ticks; no shorter one than `window` is asked for.
fn need_of_tasks(tasks: &[Timing], own: u64, window: u64, fast: u64) -> Need
    requires few { length tasks.now ≤ 31 }
    requires timed { All IsTimed tasks.now }
    requires window { window ≤ 2 ^ 24 }
    ensures { (x : ℕ) → window ≤ x → Holds result x (own + demand tasks.now x) }
{
    let mut need = Need {
        ticks: own,
        share: 0,
    };
    for task in tasks {
        let load = Load {
            period: task.period,
            jitter: task.jitter,
            work: task.cost,
        };
        need.add(load, window, fast);
    }
    need
}

/// What a window has to hold of loads, beside `base` ticks; no shorter one than `window` is asked for.
fn need_of_loads(loads: &[Load], base: u64, window: u64, fast: u64) -> Need
    requires few { length loads.now ≤ 31 }
    requires loads { All IsLoad loads.now }
    requires window { window ≤ 2 ^ 24 }
    ensures { (x : ℕ) → window ≤ x → Holds result x (base + work_in loads.now x) }
{
    let mut need = Need {
        ticks: base,
        share: 0,
    };
    for load in loads {
        need.add(*load, window, fast);
    }
    need
}

/// A window that none is below which isn't below `window` and has room for `own` ticks and for what the jobs of the tasks
/// bring: the greatest that is found so, with each period in turn as the greatest of those that come often.
fn ahead_of_tasks(tasks: &[Timing], own: u64, window: u64) -> u64
    requires few { length tasks.now ≤ 31 }
    requires timed { All IsTimed tasks.now }
    requires window { window ≤ 2 ^ 24 }
    ensures { (x : ℕ) → window ≤ x → own + demand tasks.now x ≤ x → result ≤ x }
{
    let mut most = 0;
    for task in tasks {
        most = most.max(need_of_tasks(tasks, own, window, task.period).least());
    }
    most
}

/// The same for loads, beside `base` ticks.
fn ahead_of_loads(loads: &[Load], base: u64, window: u64) -> u64
    requires few { length loads.now ≤ 31 }
    requires loads { All IsLoad loads.now }
    requires window { window ≤ 2 ^ 24 }
    ensures { (x : ℕ) → window ≤ x → base + work_in loads.now x ≤ x → result ≤ x }
{
    let mut most = 0;
    for load in loads {
        most = most.max(need_of_loads(loads, base, window, load.period).least());
    }
    most
}

/// The next window of a search among the tasks: the one that is needed, or a longer one that none is below either.
pub(crate) fn longer_of_tasks(
    tasks: &[Timing],
    own: u64,
    window: u64,
    needed: u64,
    tried: u64,
) -> u64
    requires few { length tasks.now ≤ 31 }
    requires timed { All IsTimed tasks.now }
    requires window { window ≤ 2 ^ 24 }
    ensures longer { needed ≤ result }
    ensures below { (x : ℕ) → window ≤ x → own + demand tasks.now x ≤ x → needed ≤ x → result ≤ x }
{
    if tried < PATIENCE {
        needed
    } else {
        needed.max(ahead_of_tasks(tasks, own, window))
    }
}

/// The same among loads, beside `base` ticks.
pub(crate) fn longer_of_loads(
    loads: &[Load],
    base: u64,
    window: u64,
    needed: u64,
    tried: u64,
) -> u64
    requires few { length loads.now ≤ 31 }
    requires loads { All IsLoad loads.now }
    requires window { window ≤ 2 ^ 24 }
    ensures longer { needed ≤ result }
    ensures below { (x : ℕ) → window ≤ x → base + work_in loads.now x ≤ x → needed ≤ x → result ≤ x }
{
    if tried < PATIENCE {
        needed
    } else {
        needed.max(ahead_of_loads(loads, base, window))
    }
}
