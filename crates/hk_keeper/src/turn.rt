//! The collector's turn on the shared heap: so many events, up to the first that isn't useful.
ghost use Rattle.std.specs.Prelude.{◌≡◌, ℕ, ◌+◌, ◌≤◌};
ghost use Rattle.hk_table.specs.Passes.{IsKeeperOf, kept};
ghost use Rattle.hk_keeper.specs.Collected.{Collected};

use crate::fire::fire;
use hk_core::Work;
use hk_table::{Heap, Keeper, Steps};
use std::sync::ledger::Ledger;

/// Does the next event, and answers what it did.
fn advance<L: Ledger>(heap: &Heap, keeper: &mut Keeper, steps: &mut Steps<L>) -> Work
    requires { IsKeeperOf heap.now keeper.old }
    ensures keeper { IsKeeperOf heap.now keeper.new }
    ensures collected { (events : ℕ) × Collected heap.now.geometry (kept keeper.old) 1 result events (kept keeper.new) × (steps.new ≡ steps.old + events) }
{
    let g = heap.geometry();
    let Some(event) = hk_collect::event(&keeper.spot, &g) else {
        return Work::Worn;
    };
    let found = fire(heap, &mut keeper.seat, &event);
    steps.tick();
    hk_collect::took(&mut keeper.spot, &g, found)
}

/// Does at most `budget` events of the collector, each as one atomic step, and stops at the first that isn't useful. It
/// answers Useful exactly where all of them were. Each other answer has its cause in the state at which its event was done;
/// at Worn there is no event.
pub fn collect<L: Ledger>(
    heap: &Heap,
    keeper: &mut Keeper,
    budget: u32,
    steps: &mut Steps<L>,
) -> Work
    requires keeper { IsKeeperOf heap.now keeper.old }
    requires budget { 1 ≤ budget }
    ensures keeper { IsKeeperOf heap.now keeper.new }
    ensures collected { (events : ℕ) × Collected heap.now.geometry (kept keeper.old) budget result events (kept keeper.new) × (steps.new ≡ steps.old + events) }
    ensures steps { steps.new ≤ steps.old + budget }
{
    for _ in 0..budget {
        match advance(heap, keeper, steps) {
            Work::Useful => {}
            other => return other,
        }
    }
    Work::Useful
}
