//! What is due, and the first time at which it is too much.
ghost use Rattle.std.specs.Prelude.{IsTrue, ◌↔◌, ◌≤◌, All, length};
ghost use Rattle.hk_rta.specs.Demand.{IsTimed};

use crate::due::{demand, first_over};
use hk_rta::{MAX_TASKS, MAX_TICKS, Timing};
use std::alloc::{AllocError, Global};
use std::process::Abort;
use std::test::Fail;

fn is_timed(task: &Timing) -> bool
    ensures { IsTrue result ↔ IsTimed task.now }
{
    let time = 1..=MAX_TICKS;
    time.contains(&task.cost)
        && time.contains(&task.period)
        && time.contains(&task.deadline)
        && task.jitter <= MAX_TICKS
}

/// Tasks of a cost, a period and a deadline.
fn timings(alloc: Global, tasks: &[(u64, u64, u64)]) -> Result<Vec<Timing>, AllocError> {
    tasks
        .iter()
        .map(|(cost, period, deadline)| Timing {
            cost: *cost,
            period: *period,
            deadline: *deadline,
            jitter: 0,
        })
        .collect(alloc)
}

/// Tells that there are no more tasks than there may be, and that each can be analysed.
fn check_timed(rt: &impl Abort, tasks: &[Timing])
    ensures few { length tasks.now ≤ MAX_TASKS }
    ensures timed { All IsTimed tasks.now }
{
    assert!(rt; tasks.len() <= MAX_TASKS);
    assert!(rt; tasks.iter().all(is_timed));
}

/// What is due of some tasks within a time.
fn due(rt: &impl Abort, alloc: Global, tasks: &[(u64, u64, u64)], t: u64) -> Result<u64, AllocError>
    requires { t ≤ MAX_TICKS }
{
    let tasks = timings(alloc, tasks)?;
    check_timed(rt, &tasks);
    Ok(demand(&tasks, t))
}

/// The first time at which too much is due.
fn over(
    rt: &impl Abort,
    alloc: Global,
    tasks: &[(u64, u64, u64)],
    last: u64,
) -> Result<Option<u64>, AllocError>
    requires { last ≤ MAX_TICKS }
{
    let tasks = timings(alloc, tasks)?;
    check_timed(rt, &tasks);
    Ok(first_over(&tasks, last))
}

const TWO: &[(u64, u64, u64)] = &[(2, 5, 5), (4, 7, 7)];

/// Tasks, a time, and what is due within it.
const DUE: &[(&[(u64, u64, u64)], u64, u64)] = &[
    (TWO, 4, 0),
    (TWO, 5, 2),
    (TWO, 7, 6),
    (TWO, 10, 8),
    (TWO, 14, 12),
    (&[], MAX_TICKS, 0),
    (&[(MAX_TICKS, 1, 1)], MAX_TICKS, 281_474_976_710_656),
];

#[test]
fn demands(rt: HostRuntime) -> Result<(), Fail> {
    for (tasks, t, wanted) in DUE {
        assert!(rt; *t <= MAX_TICKS);
        let found = due(&rt, rt.alloc(), *tasks, *t)?;
        assert_eq!(rt; (*t, found), (*t, *wanted));
    }
    Ok(())
}

const BIG: u64 = 16_777_216;

/// Tasks, the last time that is looked at, and the first at which too much is due.
const FIRST: &[(&[(u64, u64, u64)], u64, Option<u64>)] = &[
    (&[], 100, None),
    (&[(2, 5, 5), (4, 7, 7)], 14, None),
    (&[(2, 5, 5), (4, 7, 7)], 10_000, None),
    (&[(2, 5, 5), (4, 7, 5)], 14, Some(5)),
    (&[(2, 5, 5), (4, 7, 5)], 4, None),
    (&[(2, 5, 5), (4, 7, 5)], 5, Some(5)),
    // a deadline below the cost
    (&[(3, 9, 2)], 9, Some(2)),
    // by 6 one job of the first task is due, or two where their deadline is 2: 2 + 3, or 4 + 3
    (&[(2, 4, 4), (3, 6, 6)], 12, None),
    (&[(2, 4, 2), (3, 6, 6)], 12, Some(6)),
    (&[(1, 1, 1), (1, 1000, 1000)], 1000, Some(1000)),
    (&[(1, 1, 1), (1, 1000, 1000)], 999, None),
    (&[(BIG, BIG, BIG)], BIG, None),
];

#[test]
fn first_times(rt: HostRuntime) -> Result<(), Fail> {
    for (tasks, last, wanted) in FIRST {
        assert!(rt; *last <= MAX_TICKS);
        let found = over(&rt, rt.alloc(), *tasks, *last)?;
        assert_eq!(rt; (*last, found), (*last, *wanted));
    }
    Ok(())
}
