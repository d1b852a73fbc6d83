//! Which row is chosen.
ghost use Rattle.std.specs.Prelude.{◌<◌};

use crate::choice::Earliest;
use hk_dispatch::{Pick, Ready};
use std::process::Abort;

fn row(task: u8, deadline: u64) -> Ready {
    Ready {
        task,
        job: 0,
        arrival: 0,
        deadline,
        done: 0,
    }
}

#[tactic(auto, using(crate::proofs::Rising::three_rise))]
fn choose(first: Ready, second: Ready, third: Ready) -> usize
    requires rises { first.task < second.task }
    requires rises_on { second.task < third.task }
{
    Earliest.pick(&[first, second, third])
}

/// The place that is chosen of the rows of three tasks with these deadlines.
fn chosen(rt: &impl Abort, deadlines: (u64, u64, u64)) -> usize {
    let (first, second, third) = (
        row(0, deadlines.0),
        row(1, deadlines.1),
        row(3, deadlines.2),
    );
    assert!(rt; first.task < second.task && second.task < third.task);
    choose(first, second, third)
}

#[test]
fn earliest_rows(rt: HostRuntime) {
    assert_eq!(rt;
        [
            chosen(&rt, (5, 6, 7)),
            chosen(&rt, (5, 4, 4)),
            chosen(&rt, (9, 9, 8)),
            chosen(&rt, (5, 5, 5)),
        ],
        [0, 1, 2, 0]
    );
}
