//! The plain schedule of rows of work whose lengths are known: fixed priorities with preemption, in counted ticks.
#![tactic(auto)]

ghost use Rattle.std.specs.Prelude.{◌≡◌, ℕ, ◌+◌, ◌<◌, ◌≤◌, ◌^◌, ◌↔◌, length, slice_index, All, IfOk, IfSome, IsNone};
ghost use Rattle.std.specs.Option.{ForSome};
ghost use Rattle.hk_plan.specs.Alone.{chosen, first_of, row_at, IsUnended, TakesTicks, EndsAt, EachTickFollowsOrder};
ghost use Rattle.hk_plan.specs.Bounds.{ResponseBounds};
ghost use Rattle.hk_plan.specs.JobBounds.{ResponseBoundsJobs};
ghost use Rattle.hk_plan.specs.LeastTask.{LeastTaskIsPlain};

#[cfg(test)]
mod tests;

use hk_words::Memory;
use std::alloc::Global;
use std::marker::Model;

/// A piece of work: the task that it belongs to, where a lesser number goes first; the moment at which it becomes
/// ready; and how many ticks it takes.
#[derive(Clone, Copy, Debug, PartialEq, Eq)]
pub struct Row {
    pub task: u8,
    pub arrival: u64,
    pub ticks: u64,
}

/// What a choice among ready jobs is told of one: its task; its number within the task; the moment at which it
/// arrived; the moment by which it is to end, which is its arrival and the task's deadline; and how many ticks it has
/// had.
#[derive(Clone, Copy, Debug, PartialEq, Eq)]
pub struct Ready {
    pub task: u8,
    pub job: u64,
    pub arrival: u64,
    pub deadline: u64,
    pub done: u64,
}

/// The schedule of some rows as far as ticks were given.
///
/// Each tick goes to one of the rows that have arrived and aren't ended: to a row of the least task, and among those
/// to the one at the least place.
#[derive(Debug, Drop)]
pub struct Plan {
    rows: Vec<Row>,
    had: Vec<u64>,
    finish: Vec<Option<u64>>,
    given: u64,
}

impl Model for Plan {
    ghost use Rattle.hk_plan.specs.Alone.{Progress};

    ghost Value = { Progress };

    ghost use Rattle.hk_plan.specs.Kept.{KeepsTrack};

    ghost view = { λ p. record { rows = p.rows.items; given = p.given } };

    ghost invariant = { λ p. KeepsTrack p.rows.items p.had.items p.finish.items p.given };
}

impl Plan {
    /// A plan of these rows, before the first tick. The rows of one task are meant to stand in order of arrival, as
    /// the earliest then goes first.
    pub fn open(alloc: Global, rows: &[Row]) -> Result<Plan, Memory>
        requires { All TakesTicks rows.now }
        ensures rows { IfOk result (λ plan. plan.rows ≡ rows.now) }
        ensures given { IfOk result (λ plan. plan.given ≡ 0) }
    {
        let had = vec![in alloc; 0; rows.len()]?;
        let finish = vec![in alloc; None; rows.len()]?;
        let rows = Vec::from_slice(alloc, rows)?;
        Ok(Plan {
            rows,
            had,
            finish,
            given: 0,
        })
    }

    /// Gives the next tick, and answers the place of the row that gets it, or None where no row has arrived and
    /// isn't ended. Ticks count from 0.
    pub fn tick(&mut self) -> Option<usize>
        requires { self.old.given < 2 ^ 48 }
        ensures who { result ≡ row_at self.old.rows self.old.given }
        ensures rows { self.new.rows ≡ self.old.rows }
        ensures given { self.new.given ≡ self.old.given + 1 }
    {
        let first = first_ready(&self.rows, &self.had, self.given);
        self.given += 1;
        if let Some(place) = first {
            let ticks = self.rows[place].ticks;
            let had = self.had[place] + 1;
            self.had[place] = had;
            if had == ticks {
                self.finish[place] = Some(self.given);
            }
        }
        first
    }

    /// The number of the tick after the last one of the row at a place, or None where the row isn't ended.
    pub fn finish_of(&self, row: usize) -> Option<u64>
        requires { row < length self.now.rows }
        ensures ends { IfSome result (λ e. EndsAt self.now.rows row e) }
        ensures by_now { IfSome result (λ e. e ≤ self.now.given) }
        ensures none { IsNone result ↔ IsUnended self.now.rows self.now.given row }
    {
        self.finish[row]
    }
}

/// The law of the order: a tick goes to a row exactly where that row has arrived, isn't ended, and is of a lesser
/// task than each other such row, or of the same task and at a lesser place; and to nobody exactly where there is no
/// such row.
pub fn each_tick_follows_order()
    ensures { EachTickFollowsOrder }
{}

/// The law of response times. Let each row have an origin, the moment at which its job arrives. Where the rows of
/// each task keep to its timing, that is, take from one tick to the cost, become ready at their origin or at most the
/// jitter after it, and have origins at least a period apart in the order of their places, and the deadline of a task
/// is at most its period, each row of that task ends at most the response time after its origin, if that is at most
/// the deadline (M. Joseph and P. Pandya, Finding Response Times in a Real-Time System, 1986; the jitter: N. Audsley,
/// A. Burns, M. Richardson, K. Tindell and A. Wellings, Applying New Scheduling Theory to Static Priority Pre-emptive
/// Scheduling, 1993). It speaks of the schedule, for any rows, and not of a plan that was opened, so it serves rows too
/// whose lengths are known only afterwards.
pub fn response_bounds_every_finish()
    ensures { ResponseBounds }
{}

/// The law of the choice of the least task: where some rows list the jobs of some tasks, each in its place, the schedule
/// of the jobs by that choice is the plain schedule of the rows: each tick goes to the same job or to nobody, and each
/// job ends at the same moment.
pub fn least_task_is_plain()
    ensures { LeastTaskIsPlain }
{}

/// The law of response times over jobs: where the jobs of each task keep to its timing, that is, take from one tick to
/// the cost, become ready at their arrival or at most the jitter after it, and arrive at least a period apart, and the
/// deadline of a task is at most its period, each job of that task ends at most the response time after its arrival, in
/// the schedule by the choice of the least task, if that is at most the deadline.
pub fn response_bounds_every_job()
    ensures { ResponseBoundsJobs }
{}

/// The place of the row that goes first among those that have arrived by a moment and have had fewer ticks than
/// they take.
fn first_ready(rows: &[Row], had: &[u64], moment: u64) -> Option<usize>
    requires { length had.now ≡ length rows.now }
    ensures value { result ≡ chosen rows.now (slice_index had.now) moment }
    ensures within { IfSome result (λ k. k < length rows.now) }
{
    let mut first = None;
    for (place, row) in rows.iter().enumerate() {
        if row.arrival <= moment && had[place] < row.ticks {
            first = Some(first_of(rows, first, place));
        }
    }
    first
}

/// The one of two places that goes first, where the lesser one may be missing.
fn first_of(rows: &[Row], lesser: Option<usize>, greater: usize) -> usize
    requires lesser { ForSome lesser (λ j. j < greater) }
    requires greater { greater < length rows.now }
    ensures value { result ≡ first_of rows.now lesser greater }
    ensures within { result ≤ greater }
{
    match lesser {
        Some(place) if rows[place].task <= rows[greater].task => place,
        _ => greater,
    }
}
