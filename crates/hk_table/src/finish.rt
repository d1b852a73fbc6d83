//! How a shared heap ends.
ghost use Rattle.std.specs.Prelude.{◌≡◌, ℕ, ◌<◌, ◌≤◌, All, length, slice_index_or};
ghost use Rattle.hk_words.specs.Geometry.{tasks};
ghost use Rattle.hk_table.specs.Knows.{Closing, keeper};
ghost use Rattle.hk_table.specs.Seats.{the_keeper, the_log, with_pass};
ghost use Rattle.hk_table.specs.Passes.{IsPassOf, IsKeeperOf, known, kept};
ghost use Rattle.hk_table.specs.Taken.{KnowsAll};
ghost use Rattle.hk_table.specs.Ends.{ClosedBy, HasAllSeats};

use crate::closed::Closed;
use crate::cuts::{LastLog, TakePass};
use crate::heap::{Heap, Seat};
use crate::keeper::Keeper;
use crate::pass::Pass;

/// Ends a heap, with all its passes, each once, and its keeper.
pub fn close(heap: Heap, passes: Vec<Pass>, keeper: Keeper) -> Closed
    requires passes { All (IsPassOf heap) passes.items }
    requires seats { HasAllSeats (tasks heap.geometry) passes.items }
    requires keeper { IsKeeperOf heap keeper }
    ensures { ClosedBy heap.geometry passes.items (kept keeper) result }
{
    let mut left = passes;
    let mut seat = keeper.seat;
    while let Some(pass) = left.pop() {
        heap.take_in(&mut seat, pass);
    }
    heap.finish(seat)
}

impl Heap {
    /// The keeper takes in a pass.
    fn take_in(&self, seat: &mut Seat, pass: Pass)
        requires table { seat.old.table_id ≡ self.now.table.shared.table_id }
        requires keeper { seat.old.me.0.knows ≡ keeper self.now.geometry (the_keeper seat.old.me.0.knows) }
        requires pass { IsPassOf self.now pass }
        ensures table { seat.new.table_id ≡ seat.old.table_id }
        ensures knows { seat.new.me.0.knows ≡ keeper self.now.geometry (with_pass (the_keeper seat.old.me.0.knows) (known pass)) }
    {
        self.table.shared.join_seat::<TakePass>(seat, pass.seat);
    }

    /// Ends the heap, with the keeper's seat once it has taken in every pass.
    fn finish(self, mut seat: Seat) -> Closed
        requires table { seat.table_id ≡ self.table.shared.table_id }
        requires keeper { seat.me.0.knows ≡ keeper self.geometry (the_keeper seat.me.0.knows) }
        requires few { length (the_keeper seat.me.0.knows).log ≤ length (the_keeper seat.me.0.knows).longest }
        requires every { (number : ℕ) → number < tasks self.geometry
            → (i : ℕ) × (d : Closing) × (i < length (the_keeper seat.me.0.knows).closed) × ((slice_index_or (the_keeper seat.me.0.knows).closed i d).seat ≡ number) }
        ensures geometry { result.geometry ≡ self.geometry }
        ensures log { the_log result.seat.me.0.knows ≡ (the_keeper seat.me.0.knows).longest }
        ensures whole { KnowsAll self.geometry (the_keeper seat.me.0.knows) }
    {
        let last = self.table.shared.split_seat::<LastLog>(&mut seat);
        let Heap { table, geometry } = self;
        let closed = table.close_with(seat);
        let reserved = closed.word(1);
        closed.free();
        Closed {
            reserved,
            geometry,
            seat: last,
        }
    }
}
