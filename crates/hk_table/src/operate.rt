//! A call on the shared heap: its places one after the other, each as one atomic step.
ghost use Rattle.std.specs.Prelude.{◌≡◌, ℕ, ◌+◌, ◌≤◌, true, false};
ghost use Rattle.hk_core.specs.Step.{step_of};
ghost use Rattle.hk_words.specs.Bounds.{places_of};
ghost use Rattle.hk_table.specs.Knows.{pass};
ghost use Rattle.hk_table.specs.Deeds.{MayDo, MayBegin, Stands, Goes, is_rest, answered, taken, most_rests, the_pass};
ghost use Rattle.hk_table.specs.Calls.{Called};

use crate::heap::{Heap, Seat};
use crate::mirror::mirror;
use crate::rest::settle;
use crate::steps::Steps;
use hk_core::{Flight, Outcome, Step};
use std::marker::Brand;
use std::sync::ledger::Ledger;

const MOST_RESTS: u8 = 10;

const MOST_PLACES: u8 = 10;

impl Heap {
    /// Does the place of the flight as one atomic step, and the rests after it.
    fn turn<L: Ledger>(
        &self,
        seat: &mut Seat,
        registers: &mut Vec<u64>,
        begins: bool,
        flight: &mut Flight,
        steps: &mut Steps<L>,
    ) -> Step
        requires table { seat.old.table_id ≡ self.now.table.shared.table_id }
        requires pass { seat.old.me.0.knows ≡ pass self.now.geometry (the_pass seat.old.me.0.knows) }
        requires stands { Stands self.now.geometry (the_pass seat.old.me.0.knows) }
        requires may { MayDo self.now.geometry (record { begins = begins; flight = flight.old }) (the_pass seat.old.me.0.knows) }
        requires used { is_rest self.now.geometry flight.old ≡ false }
        requires registers { registers.old.items ≡ (the_pass seat.old.me.0.knows).registers }
        ensures table { (seat.new.table_id ≡ seat.old.table_id) × (seat.new.id ≡ seat.old.id) × (seat.new.me.1 ≡ seat.old.me.1) }
        ensures pass { seat.new.me.0.knows ≡ pass self.now.geometry (the_pass seat.new.me.0.knows) }
        ensures goes { (found : ℕ) × Goes self.now.geometry (record { begins = begins; flight = flight.old }) (the_pass seat.old.me.0.knows) found (the_pass seat.new.me.0.knows)
            × (result ≡ answered most_rests self.now.geometry (taken self.now.geometry (record { begins = begins; flight = flight.old }) found) (step_of flight.old)) }
        ensures flight { flight.new ≡ (the_pass seat.new.me.0.knows).flight }
        ensures registers { registers.new.items ≡ (the_pass seat.new.me.0.knows).registers }
        ensures steps { steps.new ≡ steps.old + 1 }
    {
        let Some(event) = flight.event(&self.geometry) else {
            unreachable!()
        };
        let found = self.fire::<Brand>(seat, begins, flight, &event);
        steps.tick();
        mirror(&self.geometry, registers, flight.seat, &event);
        let answer = flight.took(&self.geometry, found);
        settle(&self.geometry, flight, answer, MOST_RESTS)
    }

    /// Does a whole call, from its begin on.
    pub(crate) fn operate<L: Ledger>(
        &self,
        seat: &mut Seat,
        registers: &mut Vec<u64>,
        first: Flight,
        steps: &mut Steps<L>,
    ) -> Outcome
        requires table { seat.old.table_id ≡ self.now.table.shared.table_id }
        requires pass { seat.old.me.0.knows ≡ pass self.now.geometry (the_pass seat.old.me.0.knows) }
        requires stands { Stands self.now.geometry (the_pass seat.old.me.0.knows) }
        requires may { MayBegin self.now.geometry (the_pass seat.old.me.0.knows) first }
        requires registers { registers.old.items ≡ (the_pass seat.old.me.0.knows).registers }
        ensures table { (seat.new.table_id ≡ seat.old.table_id) × (seat.new.id ≡ seat.old.id) × (seat.new.me.1 ≡ seat.old.me.1) }
        ensures pass { seat.new.me.0.knows ≡ pass self.now.geometry (the_pass seat.new.me.0.knows) }
        ensures called { Called self.now.geometry (the_pass seat.old.me.0.knows) first.call result (the_pass seat.new.me.0.knows) }
        ensures registers { registers.new.items ≡ (the_pass seat.new.me.0.knows).registers }
        ensures steps { steps.new ≤ steps.old + places_of first.call }
    {
        let mut flight = first;
        let mut step = self.turn(seat, registers, true, &mut flight, steps);
        for _ in 0..MOST_PLACES {
            match step {
                Step::Ended(outcome) => return outcome,
                Step::Going => step = self.turn(seat, registers, false, &mut flight, steps),
            }
        }
        unreachable!()
    }
}
