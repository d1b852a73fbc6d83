//! Response times and busy periods that were worked out by hand.
ghost use Rattle.std.specs.Prelude.{IsTrue, ◌↔◌};
ghost use Rattle.hk_rta.specs.Demand.{IsTimed, IsLoad};

use crate::{
    Load, MAX_TASKS, MAX_TICKS, MAX_WORK, Timing, busy, next_response, response, response_from,
};
use std::alloc::{AllocError, Global};
use std::process::Abort;
use std::test::Fail;

fn is_timed(task: &Timing) -> bool
    ensures { IsTrue result ↔ IsTimed task.now }
{
    let time = 1..=MAX_TICKS;
    time.contains(&task.cost)
        && time.contains(&task.period)
        && time.contains(&task.deadline)
        && task.jitter <= MAX_TICKS
}

fn is_load(load: &Load) -> bool
    ensures { IsTrue result ↔ IsLoad load.now }
{
    (1..=MAX_TICKS).contains(&load.period) && load.jitter <= MAX_TICKS && load.work <= MAX_WORK
}

/// The tasks of a list of (cost, period, deadline, jitter).
fn timings(alloc: Global, tasks: &[(u64, u64, u64, u64)]) -> Result<Vec<Timing>, AllocError> {
    tasks
        .iter()
        .map(|(cost, period, deadline, jitter)| Timing {
            cost: *cost,
            period: *period,
            deadline: *deadline,
            jitter: *jitter,
        })
        .collect(alloc)
}

/// The response time of the last task of such a list.
fn last(
    rt: &impl Abort,
    alloc: Global,
    tasks: &[(u64, u64, u64, u64)],
) -> Result<Option<u64>, AllocError> {
    let tasks = timings(alloc, tasks)?;
    assert!(rt; !tasks.is_empty() && tasks.len() <= MAX_TASKS);
    assert!(rt; tasks.iter().all(is_timed));
    Ok(response(&tasks, tasks.len() - 1))
}

/// The response times of such a list, each found after those before it, up to the first task that has none.
fn one_by_one(
    rt: &impl Abort,
    alloc: Global,
    tasks: &[(u64, u64, u64, u64)],
) -> Result<Vec<u64>, AllocError> {
    let tasks = timings(alloc, tasks)?;
    assert!(rt; tasks.len() <= MAX_TASKS);
    assert!(rt; tasks.iter().all(is_timed));
    let mut times = Vec::new(alloc);
    for _ in 0..tasks.len() {
        match next_response(&tasks, &times) {
            Some(ticks) => times.push(ticks)?,
            None => break,
        }
    }
    Ok(times)
}

/// The response time of the last task of such a list, looked for from a length that is at most its own.
fn last_from(
    rt: &impl Abort,
    alloc: Global,
    tasks: &[(u64, u64, u64, u64)],
    least: u64,
) -> Result<Option<u64>, AllocError> {
    let tasks = timings(alloc, tasks)?;
    assert!(rt; !tasks.is_empty() && tasks.len() <= MAX_TASKS);
    assert!(rt; tasks.iter().all(is_timed));
    let i = tasks.len() - 1;
    let Some(ticks) = response(&tasks, i) else {
        return Ok(None);
    };
    assert!(rt; least <= ticks - tasks[i].jitter);
    Ok(response_from(&tasks, i, least))
}

/// The busy period of a list of (period, jitter, work).
fn period(
    rt: &impl Abort,
    alloc: Global,
    loads: &[(u64, u64, u64)],
    base: u64,
    cap: u64,
) -> Result<Option<u64>, AllocError> {
    let loads: Vec<Load> = loads
        .iter()
        .map(|(period, jitter, work)| Load {
            period: *period,
            jitter: *jitter,
            work: *work,
        })
        .collect(alloc)?;
    assert!(rt; loads.len() <= MAX_TASKS && base <= MAX_WORK && cap <= MAX_TICKS);
    assert!(rt; loads.iter().all(is_load));
    Ok(busy(&loads, base, cap))
}

#[test]
fn least_responses(rt: HostRuntime) -> Result<(), Fail> {
    const BIG: u64 = 16_777_216;
    let cases: [(&[(u64, u64, u64, u64)], Option<u64>); 38] = [
        (&[(1, 4, 4, 0)], Some(1)),
        (&[(1, 4, 4, 0), (2, 6, 6, 0)], Some(3)),
        (&[(1, 4, 4, 0), (2, 6, 6, 0), (3, 12, 12, 0)], Some(10)),
        (&[(1, 4, 4, 0), (2, 6, 6, 0), (3, 12, 10, 0)], Some(10)),
        (&[(1, 4, 4, 0), (2, 6, 6, 0), (3, 12, 9, 0)], None),
        // the utilisation is exactly 1, and the periods are harmonic
        (&[(1, 2, 2, 0), (1, 4, 4, 0)], Some(2)),
        (&[(1, 2, 2, 0), (1, 4, 4, 0), (2, 8, 8, 0)], Some(8)),
        // the greatest numbers
        (&[(BIG, BIG, BIG, 0)], Some(BIG)),
        (&[(BIG, BIG, BIG, 0), (BIG, BIG, BIG, 0)], None),
        (&[(BIG - 1, BIG, BIG, 0), (1, BIG, BIG, 0)], Some(BIG)),
        (
            &[(BIG, 1, BIG, 0), (BIG, 1, BIG, 0), (BIG, 1, BIG, 0)],
            None,
        ),
        // thirty tasks before the last
        (&[(1, 31, 31, 0); 31], Some(31)),
        (&[(1, 31, 30, 0); 31], None),
        (&[(1, 30, 31, 0); 31], None),
        // 3 and 7 solve these equations too, and a search from the deadline finds them first
        (&[(1, 2, 2, 0), (1, 4, 3, 0)], Some(2)),
        (&[(2, 5, 5, 0), (3, 12, 7, 0)], Some(5)),
        // a window that ends as the next period begins
        (&[(2, 4, 4, 0), (2, 8, 8, 0)], Some(4)),
        (&[(2, 4, 4, 0), (3, 8, 8, 0)], Some(7)),
        // no job of the last task is ever done
        (&[(1, 1, 1, 0), (1, 100, 100, 0)], None),
        // the cost is the deadline, and above it
        (&[(4, 10, 4, 0)], Some(4)),
        (&[(5, 10, 4, 0)], None),
        // worked by hand: 5, 11, 14, 17, 20
        (&[(3, 7, 7, 0), (3, 12, 12, 0)], Some(6)),
        (&[(3, 7, 7, 0), (3, 12, 12, 0), (5, 20, 20, 0)], Some(20)),
        (&[(3, 7, 7, 0), (3, 12, 12, 0), (5, 20, 19, 0)], None),
        // 40, 60, 75, 80
        (
            &[(5, 20, 20, 0), (10, 40, 40, 0), (40, 80, 80, 0)],
            Some(80),
        ),
        // 100, 160, 220, 240
        (
            &[(20, 100, 100, 0), (40, 150, 150, 0), (100, 350, 350, 0)],
            Some(240),
        ),
        (&[(20, 100, 100, 0), (40, 150, 150, 0)], Some(60)),
        // the first may be ready 3 late: 4 for the second by 2, 4, and 11 for the third by 3, 7, 10, 11
        (&[(1, 4, 4, 3)], Some(4)),
        (&[(1, 4, 4, 3), (2, 6, 6, 0)], Some(4)),
        (&[(1, 4, 4, 3), (2, 6, 6, 0), (3, 12, 12, 0)], Some(11)),
        (&[(1, 4, 4, 3), (2, 6, 6, 0), (3, 12, 10, 0)], None),
        // a task's own jitter comes before its length, and doesn't make the others come more often
        (&[(1, 4, 4, 0), (2, 6, 6, 3)], Some(6)),
        (&[(1, 4, 4, 0), (2, 6, 5, 3)], None),
        // a jitter above the deadline, and the greatest one
        (&[(1, 10, 4, 5)], None),
        (&[(1, BIG, BIG, BIG - 1)], Some(BIG)),
        (&[(1, BIG, BIG, BIG)], None),
        (&[(1, BIG, BIG, BIG), (1, BIG, BIG, 0)], Some(3)),
        (
            &[(BIG, 1, BIG, BIG), (BIG, 1, BIG, BIG), (1, BIG, BIG, 0)],
            None,
        ),
    ];
    for (tasks, want) in cases {
        assert_eq!(rt; last(&rt, rt.alloc(), tasks)?, want, "at {tasks:?}");
    }
    Ok(())
}

#[test]
fn responses_one_by_one(rt: HostRuntime) -> Result<(), Fail> {
    const BIG: u64 = 16_777_216;
    let cases: [(&[(u64, u64, u64, u64)], &[u64]); 10] = [
        (&[], &[]),
        (&[(1, 4, 4, 0), (2, 6, 6, 0), (3, 12, 12, 0)], &[1, 3, 10]),
        (&[(1, 4, 4, 0), (2, 6, 6, 0), (3, 12, 9, 0)], &[1, 3]),
        // the periods 2, 3 and 7 leave one tick in 42, the last one, and with 43 one in 1806
        (
            &[
                (1, 2, 2, 0),
                (1, 3, 3, 0),
                (1, 7, 7, 0),
                (1, 99, 99, 0),
                (1, 99, 99, 0),
            ],
            &[1, 2, 6, 42, 84],
        ),
        (
            &[
                (1, 2, 2, 0),
                (1, 3, 3, 0),
                (1, 7, 7, 0),
                (1, 43, 43, 0),
                (1, BIG, BIG, 0),
                (1, BIG, BIG, 0),
                (1, BIG, 5417, 0),
            ],
            &[1, 2, 6, 42, 1806, 3612],
        ),
        // and with 1,807 one in 3,263,442, so far that the search looks ahead
        (
            &[
                (1, 2, 2, 0),
                (1, 3, 3, 0),
                (1, 7, 7, 0),
                (1, 43, 43, 0),
                (1, 1807, 1807, 0),
                (1, BIG, BIG, 0),
                (1, BIG, BIG, 0),
                (4, BIG, BIG, 0),
            ],
            &[1, 2, 6, 42, 1806, 3_263_442, 6_526_884],
        ),
        // the jitter of the task before is no part of its length
        (&[(1, 100, 100, 90), (1, 100, 100, 0)], &[91, 2]),
        (&[(1, 4, 4, 3), (2, 6, 6, 0), (3, 12, 12, 0)], &[4, 4, 11]),
        // 3, 6, 9, 10, 12 for the third
        (&[(1, 4, 4, 0), (2, 6, 6, 3), (3, 12, 12, 0)], &[1, 6, 12]),
        // the greatest numbers
        (&[(BIG, BIG, BIG, 0), (BIG, BIG, BIG, 0)], &[BIG]),
    ];
    for (tasks, want) in cases {
        let times = one_by_one(&rt, rt.alloc(), tasks)?;
        assert_eq!(rt; &times[..], want, "at {tasks:?}");
    }
    Ok(())
}

#[test]
fn responses_from_a_length(rt: HostRuntime) -> Result<(), Fail> {
    let three = &[(3, 7, 7, 0), (3, 12, 12, 0), (5, 20, 20, 0)];
    let late = &[(1, 4, 4, 0), (2, 6, 6, 3)];
    let cases: [(&[(u64, u64, u64, u64)], u64, u64); 7] = [
        // below the cost, on the way (5, 11, 14, 17, 20), between two of these, and at the end
        (three, 0, 20),
        (three, 14, 20),
        (three, 15, 20),
        (three, 20, 20),
        // the length without the jitter
        (late, 0, 6),
        (late, 2, 6),
        (late, 3, 6),
    ];
    for (tasks, least, want) in cases {
        assert_eq!(rt;
            last_from(&rt, rt.alloc(), tasks, least)?,
            Some(want),
            "at {tasks:?} {least}"
        );
    }
    Ok(())
}

#[test]
fn least_periods(rt: HostRuntime) -> Result<(), Fail> {
    const BIG: u64 = 16_777_216;
    let cases: [(&[(u64, u64, u64)], u64, u64, Option<u64>); 23] = [
        (&[], 0, 0, None),
        (&[], 0, 1, Some(1)),
        (&[], 5, 5, Some(5)),
        (&[], 5, 4, None),
        (&[(5, 0, 0)], 3, 9, Some(3)),
        (&[(10, 0, 3)], 2, 9, Some(5)),
        (&[(10, 0, 3)], 8, 99, Some(14)),
        // more comes in each period than it holds
        (&[(10, 0, 13)], 1, 1_000, None),
        // 1, 6, 7, 9, 10
        (&[(4, 0, 1), (6, 0, 2), (12, 0, 3)], 0, 10, Some(10)),
        (&[(4, 0, 1), (6, 0, 2), (12, 0, 3)], 0, 9, None),
        (&[(2, 0, 1), (4, 0, 1), (8, 0, 2)], 0, 99, Some(8)),
        (&[(2, 0, 1), (4, 0, 1), (8, 0, 2)], 1, 1_000, None),
        // the greatest numbers
        (&[(BIG, 0, BIG)], 0, BIG, Some(BIG)),
        (&[(BIG, 0, BIG)], 1, BIG, None),
        (&[(BIG, 0, 1)], BIG - 1, BIG, Some(BIG)),
        (&[], MAX_WORK, BIG, None),
        // what arrived in the jitter before comes too: 1, 5, 8
        (&[(10, 9, 3)], 2, 9, Some(8)),
        // 1, 6, 8, 10, 11
        (&[(4, 3, 1), (6, 0, 2), (12, 0, 3)], 0, 99, Some(11)),
        (&[(BIG, BIG, 1)], 0, BIG, Some(2)),
        // one tick in 3,263,442 is left, the last one
        (
            &[(2, 0, 1), (3, 0, 1), (7, 0, 1), (43, 0, 1), (1807, 0, 1)],
            5,
            BIG,
            Some(16_317_210),
        ),
        (
            &[(2, 0, 1), (3, 0, 1), (7, 0, 1), (43, 0, 1), (1807, 0, 1)],
            6,
            BIG,
            None,
        ),
        (&[(1, BIG, MAX_WORK); 31], MAX_WORK, BIG, None),
        (&[(1, 0, MAX_WORK); 31], MAX_WORK, BIG, None),
    ];
    for (loads, base, cap, want) in cases {
        assert_eq!(rt;
            period(&rt, rt.alloc(), loads, base, cap)?,
            want,
            "at {loads:?} {base} {cap}"
        );
    }
    Ok(())
}
