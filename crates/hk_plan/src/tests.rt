//! Plans that were worked out by hand: who gets each tick, and when each row ends.
use crate::{Plan, Row};
use std::alloc::Global;
use std::process::Abort;
use std::test::Fail;

/// Opens a plan of rows of (task, arrival, ticks), and compares who gets its ticks and how its rows end.
fn check(
    rt: &impl Abort,
    alloc: Global,
    rows: &[(u8, u64, u64)],
    ticks: &[Option<usize>],
    ends: &[Option<u64>],
) -> Result<(), Fail> {
    let rows: Vec<Row> = rows
        .iter()
        .map(|(task, arrival, ticks)| Row {
            task: *task,
            arrival: *arrival,
            ticks: *ticks,
        })
        .collect(alloc)?;
    assert!(rt; rows.iter().all(|row| row.ticks >= 1));
    assert!(rt; ticks.len() < 100 && ends.len() == rows.len());
    let mut plan = Plan::open(alloc, &rows)?;
    for (tick, want) in ticks.iter().enumerate() {
        assert_eq!(rt; plan.tick(), *want, "who gets tick {tick}");
    }
    for (place, want) in ends.iter().enumerate() {
        assert_eq!(rt; plan.finish_of(place), *want, "the end of row {place}");
    }
    Ok(())
}

#[test]
fn ticks_and_ends(rt: HostRuntime) -> Result<(), Fail> {
    const LAST: u64 = u64::MAX;
    let cases: [(&[(u8, u64, u64)], &[Option<usize>], &[Option<u64>]); 14] = [
        (
            &[(0, 1, 1), (1, 0, 2)],
            &[Some(1), Some(0), Some(1), None],
            &[Some(2), Some(3)],
        ),
        (&[], &[None, None], &[]),
        // before the first tick, and after some
        (&[(0, 0, 2)], &[], &[None]),
        (&[(0, 0, 2)], &[Some(0)], &[None]),
        // an arrival later than the first tick
        (
            &[(0, 2, 3)],
            &[None, None, Some(0), Some(0), Some(0), None],
            &[Some(5)],
        ),
        // rows of one task go in order
        (
            &[(0, 0, 2), (0, 1, 1)],
            &[Some(0), Some(0), Some(1)],
            &[Some(2), Some(3)],
        ),
        (
            &[(3, 0, 1), (3, 0, 1)],
            &[Some(0), Some(1), None],
            &[Some(1), Some(2)],
        ),
        // the lesser task goes first, wherever it stands
        (
            &[(5, 0, 2), (4, 0, 2)],
            &[Some(1), Some(1), Some(0), Some(0)],
            &[Some(4), Some(2)],
        ),
        // one row is held up by another, and that one by a third
        (
            &[(2, 0, 3), (1, 1, 2), (0, 2, 1)],
            &[Some(0), Some(1), Some(2), Some(1), Some(0), Some(0), None],
            &[Some(6), Some(4), Some(3)],
        ),
        // nobody is ready between two rows
        (
            &[(0, 0, 1), (0, 3, 1)],
            &[Some(0), None, None, Some(1)],
            &[Some(1), Some(4)],
        ),
        // the last moment, and the greatest length
        (&[(0, LAST, 1)], &[None, None], &[None]),
        (
            &[(0, 0, LAST), (1, 0, 1)],
            &[Some(0), Some(0), Some(0)],
            &[None, None],
        ),
        // tasks of (cost, period) (1, 4), (2, 6) and (3, 12) over 12 ticks
        (
            &[
                (0, 0, 1),
                (0, 4, 1),
                (0, 8, 1),
                (1, 0, 2),
                (1, 6, 2),
                (2, 0, 3),
            ],
            &[
                Some(0),
                Some(3),
                Some(3),
                Some(5),
                Some(1),
                Some(5),
                Some(4),
                Some(4),
                Some(2),
                Some(5),
                None,
                None,
            ],
            &[Some(1), Some(5), Some(9), Some(3), Some(8), Some(10)],
        ),
        // the same, where the jobs of the first task are ready 0, 3 and 2 after their arrivals at 0, 4 and 8
        (
            &[
                (0, 0, 1),
                (0, 7, 1),
                (0, 10, 1),
                (1, 0, 2),
                (1, 6, 2),
                (2, 0, 3),
            ],
            &[
                Some(0),
                Some(3),
                Some(3),
                Some(5),
                Some(5),
                Some(5),
                Some(4),
                Some(1),
                Some(4),
                None,
                Some(2),
                None,
            ],
            &[Some(1), Some(8), Some(11), Some(3), Some(9), Some(6)],
        ),
    ];
    for (rows, ticks, ends) in cases {
        check(&rt, rt.alloc(), rows, ticks, ends)?;
    }
    Ok(())
}
