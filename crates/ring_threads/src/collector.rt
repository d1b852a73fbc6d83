//! The collector's thread.
ghost use Rattle.std.specs.Prelude.{◌≡◌, ◌<◌};
ghost use Rattle.hk_table.specs.Passes.{IsKeeperOf};

use crate::shared::{Shared, Stopped, TURNS};
use hk_core::Line;
use hk_keeper::{Work, collect};
use hk_table::{Heap, Keeper, Steps};
use std::sync::atomic::Ordering;
use std::sync::ledger::{Blank, Ledger};
use std::thread;

/// The most events between two looks at what the loops tell.
const BUDGET: u32 = 64;

/// Collects until both loops have ended. Where it stands before a flip between two turns it waits until the fast loop wants room; a
/// turn that ends a cycle goes on to the flip.
pub fn collect_all<L: Ledger>(
    heap: &Heap,
    mut keeper: Keeper,
    shared: &Shared,
    blank: Blank,
) -> Result<(), Stopped>
    requires keeper { IsKeeperOf heap.now keeper }
    requires name { blank.name ≡ L.name }
    requires parts { blank.parts ≡ L.parts }
    requires some { 0 < L.parts }
{
    let mut steps = Steps::<L>::new(blank);
    for _ in 0..TURNS {
        if shared.ended.load(Ordering::SeqCst) == 2 {
            return Ok(());
        }
        if keeper.spot.line == Line::Rest && !shared.wants_room.load(Ordering::SeqCst) {
            thread::yield_now();
            continue;
        }
        match collect(heap, &mut keeper, BUDGET, &mut steps) {
            Work::Useful => {}
            Work::Flipped => shared.wants_room.store(false, Ordering::SeqCst),
            Work::Lost(_)
            | Work::BusyFrame(_)
            | Work::BusyObject(_)
            | Work::Unlinked(_)
            | Work::Grey(_) => thread::yield_now(),
            work @ (Work::LiveOver(_) | Work::Worn) => return Err(Stopped::Collector(work)),
        }
    }
    Err(Stopped::Waited)
}
