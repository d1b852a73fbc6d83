//! The collector's thread.
ghost use Rattle.std.specs.Prelude.{◌≡◌, ℕ, ◌+◌, ◌<◌, ◌≤◌, IsNone, IfSome};
ghost use Rattle.hk_words.specs.Geometry.{tasks};
ghost use Rattle.hk_table.specs.Passes.{IsKeeperOf, kept};
ghost use Rattle.hk_table.specs.Seats.{keeper_from};
ghost use Rattle.hk_keeper.specs.Collected.{flips};
ghost use Rattle.hk_race.specs.Lives.{is_last, live_in, live_of, reserved_by};

use crate::gate::Gate;
use crate::room::{AtWork, rest};
use hk_keeper::{Work, collect};
use hk_table::{Heap, Keeper, Steps};
use std::sync::Wait;
use std::sync::ledger::{Blank, Ledger};

/// The most events between two looks at the count of workers.
const TURN: u32 = 64;

/// The collector can't go on after this answer.
fn is_last(answer: Work) -> bool
    ensures { result ≡ is_last answer }
{
    match answer {
        Work::LiveOver(_) | Work::Worn => true,
        Work::Useful
        | Work::Flipped
        | Work::Lost(_)
        | Work::BusyFrame(_)
        | Work::BusyObject(_)
        | Work::Unlinked(_)
        | Work::Grey(_) => false,
    }
}

/// The words that an answer finds live, where they are too many.
fn live_in(answer: Work) -> Option<u64>
    ensures { result ≡ live_in answer }
{
    match answer {
        Work::LiveOver(words) => Some(words),
        Work::Useful
        | Work::Flipped
        | Work::Lost(_)
        | Work::BusyFrame(_)
        | Work::BusyObject(_)
        | Work::Unlinked(_)
        | Work::Grey(_)
        | Work::Worn => None,
    }
}

/// So many flips, and that of an answer, if it tells one.
#[tactic(auto, using(crate::proofs::Living::one_more))]
fn counted(so_far: u64, answer: Work) -> u64
    ensures { result ≤ so_far + flips answer }
{
    match answer {
        Work::Flipped => so_far.saturating_add(1),
        Work::Useful
        | Work::Lost(_)
        | Work::BusyFrame(_)
        | Work::BusyObject(_)
        | Work::Unlinked(_)
        | Work::Grey(_)
        | Work::LiveOver(_)
        | Work::Worn => so_far,
    }
}

/// Collects until no worker is left and two cycles have begun, or as long as it can: it stops where more words live than were
/// declared, and answers how many, and where there is no further cycle. Before a cycle that nobody needs it rests for a while.
pub(crate) fn collect_all<L: Ledger, R: Wait, G: Gate>(
    rt: &R,
    heap: &Heap,
    gate: &G,
    at_work: &AtWork,
    keeper: &mut Keeper,
    blank: Blank,
) -> Option<u64>
    requires name { blank.name ≡ L.name }
    requires parts { blank.parts ≡ L.parts }
    requires some { 0 < L.parts }
    requires keeper { IsKeeperOf heap.now keeper.old }
    requires fresh { kept keeper.old ≡ keeper_from (tasks heap.now.geometry) }
    ensures keeper { IsKeeperOf heap.now keeper.new }
    ensures live { result ≡ live_of heap.now.geometry (kept keeper.new).log }
    ensures above { IfSome result (λ words. heap.now.geometry.live < words) }
    ensures reserved { IfSome result (λ words. words ≤ reserved_by heap.now.geometry (kept keeper.new).log) }
    ensures cycle { IsNone result → 3 ≤ (kept keeper.new).spot.cycle }
{
    let mut steps = Steps::<L>::new(blank);
    let seat = heap.geometry().tasks();
    let mut calls = 0u64;
    let mut flips = 0u64;
    for _ in rt.forever() {
        gate.before(rt, seat, calls);
        let answer = collect(heap, keeper, TURN, &mut steps);
        gate.after(rt, seat, calls);
        calls = calls.saturating_add(1);
        if is_last(answer) {
            return live_in(answer);
        }
        flips = counted(flips, answer);
        if at_work.is_done() && flips >= 2 {
            return None;
        }
        if answer == Work::Flipped {
            rest(heap, at_work);
        }
    }
    unreachable!()
}
