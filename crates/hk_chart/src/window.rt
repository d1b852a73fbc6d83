//! Which ticks are drawn.
ghost use Rattle.std.specs.Prelude.{◌≡◌, ◌≤◌, ◌^◌};
ghost use Rattle.hk_chart.specs.Shapes.{is_within, is_moment, arrival, arrival_of, task_at, deadline_of, lane_of, bar_of, open_after, closed_by, mark_of_tick, mark_of};

use crate::shape::{Bar, Lane, Shape};
use crate::task::Task;
use crate::trace_line::{TraceLine, Who};

/// The first and the last tick that are drawn.
#[derive(Clone, Copy, Debug)]
pub struct Window {
    pub first: u32,
    pub last: u32,
}

/// The lane of a tick.
fn lane_of(who: Who) -> Lane
    ensures { result ≡ lane_of who }
{
    match who {
        Who::High(place) | Who::Low(place) => Lane::Task(place),
        Who::Step | Who::Flip | Who::Live => Lane::Collector,
        Who::Lost(_) => Lane::Lost,
        Who::Idle => Lane::Nobody,
    }
}

/// The mark of a tick.
fn mark_of_tick(tick: u32, who: Who) -> Option<Shape>
    ensures { result ≡ mark_of_tick tick who }
{
    match who {
        Who::Lost(events) => Some(Shape::Lost { tick, events }),
        Who::High(_) | Who::Low(_) | Who::Step | Who::Flip | Who::Live | Who::Idle => None,
    }
}

impl Window {
    /// Whether a tick is drawn.
    fn holds(self, tick: u32) -> bool
        ensures { result ≡ is_within self tick }
    {
        self.first <= tick && tick <= self.last
    }

    /// Whether a moment is drawn.
    fn shows(self, moment: u64) -> bool
        ensures { result ≡ is_moment self moment }
    {
        u64::from(self.first) <= moment && moment <= u64::from(self.last) + 1
    }

    /// The rectangle of the tick of a line.
    pub fn bar_of(self, line: TraceLine) -> Option<Bar>
        ensures { result ≡ bar_of self line }
    {
        match line {
            TraceLine::Tick { tick, who } => {
                if self.holds(tick) {
                    Some(Bar {
                        lane: lane_of(who),
                        first: tick,
                        last: tick,
                    })
                } else {
                    None
                }
            }
            _ => None,
        }
    }

    /// The mark of a line.
    pub fn mark_of(self, line: TraceLine) -> Option<Shape>
        ensures { result ≡ mark_of self line }
    {
        match line {
            TraceLine::Tick { tick, who } => {
                if self.holds(tick) {
                    mark_of_tick(tick, who)
                } else {
                    None
                }
            }
            TraceLine::Out { tick, lane, value } => {
                if self.holds(tick) {
                    Some(Shape::Out { tick, lane, value })
                } else {
                    None
                }
            }
            TraceLine::Fault {
                tick,
                lane,
                job,
                statement,
                cause,
            } => {
                if self.holds(tick) {
                    Some(Shape::Fault {
                        tick,
                        lane,
                        job,
                        statement,
                        cause,
                    })
                } else {
                    None
                }
            }
            TraceLine::Ended {
                tick,
                lane,
                job,
                ticks,
            } => {
                if self.shows(u64::from(tick) + 1) {
                    Some(Shape::End {
                        tick,
                        lane,
                        job,
                        ticks,
                    })
                } else {
                    None
                }
            }
            _ => None,
        }
    }

    /// The arrival of a job that ended.
    pub fn arrival_of(self, line: TraceLine) -> Option<Shape>
        ensures { result ≡ arrival_of self line }
    {
        match line {
            TraceLine::Ended {
                tick,
                lane,
                job,
                ticks,
            } => {
                let moment = arrival(tick, ticks);
                if self.shows(moment) {
                    Some(Shape::Arrival { moment, lane, job })
                } else {
                    None
                }
            }
            _ => None,
        }
    }

    /// The deadline of a job that ended, where its task has one.
    pub fn deadline_of(self, tasks: &[Task], line: TraceLine) -> Option<Shape>
        ensures { result ≡ deadline_of self tasks.now line }
    {
        match line {
            TraceLine::Ended {
                tick,
                lane,
                job,
                ticks,
            } => match deadline_at(tasks, lane) {
                Some(deadline) => {
                    let moment = arrival(tick, ticks) + u64::from(deadline);
                    if self.shows(moment) {
                        Some(Shape::Deadline { moment, lane, job })
                    } else {
                        None
                    }
                }
                None => None,
            },
            _ => None,
        }
    }
}

/// The arrival of a job that ended with a tick, so many ticks after it.
fn arrival(tick: u32, ticks: u32) -> u64
    ensures value { result ≡ arrival tick ticks }
    ensures few { result ≤ 2 ^ 32 }
{
    (u64::from(tick) + 1).saturating_sub(u64::from(ticks))
}

/// The deadline of the task of a place, if it has one.
fn deadline_at(tasks: &[Task], place: u8) -> Option<u32>
    ensures { result ≡ (task_at tasks.now place).deadline }
{
    match tasks.get(usize::from(place)) {
        Some(task) => task.deadline,
        None => None,
    }
}

/// The open rectangle after one more.
pub fn open_after(current: Option<Bar>, bar: Option<Bar>) -> Option<Bar>
    ensures { result ≡ open_after current bar }
{
    match (current, bar) {
        (Some(current), Some(bar)) => {
            if current.lane.is(bar.lane) {
                Some(Bar {
                    last: bar.last,
                    ..current
                })
            } else {
                Some(bar)
            }
        }
        (None, Some(bar)) => Some(bar),
        (current, None) => current,
    }
}

/// The rectangle that is done with one more.
pub fn closed_by(current: Option<Bar>, bar: Option<Bar>) -> Option<Bar>
    ensures { result ≡ closed_by current bar }
{
    match (current, bar) {
        (Some(current), Some(bar)) => {
            if current.lane.is(bar.lane) {
                None
            } else {
                Some(current)
            }
        }
        _ => None,
    }
}
