//! The tick of an operation on the heap, and of a question to it.
ghost use Rattle.std.specs.Prelude.{◌≡◌, ◌<◌, Some, true};
ghost use Rattle.hk_words.specs.Geometry.{tasks};
ghost use Rattle.hk_words.specs.Calls.{RegistersFit};
ghost use Rattle.hk_model.specs.History.{is_question};
ghost use Rattle.hk_model.specs.Replies.{said};
ghost use Rattle.hk_core.specs.State.{IsSized, flight_of};
ghost use Rattle.hk_core.specs.Begin.{refusal};
ghost use Rattle.hk_script.specs.declared.walk.Need.TheVariants.{Heap};
ghost use Rattle.hk_dispatch.specs.InStep.{SeatInStep, MayBegin};
ghost use Rattle.hk_dispatch.specs.Ticks.{core_first, leaves_first, core_on, leaves_on, asked};

use hk_collect::OwnedHeap;
use hk_core::{Fault, Outcome, Step};
use hk_words::{Call, Reply};

/// How a tick leaves a job.
#[derive(Clone, Copy, Debug, PartialEq, Eq)]
pub enum Left {
    /// At the same statement.
    Stays,
    /// Past the statement, which had this reply.
    Passes(Reply),
    /// Ended, since the operation was refused.
    Faults(Fault),
}

impl Left {
    ghost use Rattle.hk_dispatch.specs.Ticks.{left_in};

    /// What the step of an operation says of the job.
    fn of(step: Step) -> Left
        ensures { result ≡ left_in step }
    {
        match step {
            Step::Going => Left::Stays,
            Step::Ended(Outcome::Done(reply)) => Left::Passes(reply),
            Step::Ended(Outcome::Full { .. }) => Left::Passes(Reply::Full),
        }
    }
}

/// Does the first tick of an operation: its begin, and where that isn't refused its first place.
#[tactic(auto, using(crate::proofs::Begun::begun))]
fn start(heap: &mut OwnedHeap, seat: u8, call: Call) -> Left
    requires sized { IsSized heap.old }
    requires seat { seat < tasks heap.old.geometry }
    requires may { MayBegin heap.old.geometry call }
    requires idle { (flight_of heap.old.flights seat).place ≡ 0 }
    ensures heap { heap.new ≡ core_first heap.old seat call (refusal heap.old seat call) }
    ensures left { result ≡ leaves_first heap.old seat call (refusal heap.old seat call) }
{
    if let Err(fault) = heap.begin(seat, call) {
        return Left::Faults(fault);
    }
    Left::of(heap.step(seat))
}

/// Does one tick of an operation of a seat, of which it has had so many.
pub fn operate(heap: &mut OwnedHeap, seat: u8, call: Call, spent: u64) -> Left
    requires sized { IsSized heap.old }
    requires seat { seat < tasks heap.old.geometry }
    requires may { MayBegin heap.old.geometry call }
    requires in_step { SeatInStep (flight_of heap.old.flights seat) (Some (Heap call)) spent }
    ensures heap { heap.new ≡ core_on heap.old seat call spent }
    ensures left { result ≡ leaves_on heap.old seat call spent }
{
    if spent == 0 {
        start(heap, seat, call)
    } else {
        Left::of(heap.step(seat))
    }
}

/// Answers a question of a seat.
pub fn ask(heap: &OwnedHeap, seat: u8, call: Call) -> Reply
    requires seat { seat < tasks heap.now.geometry }
    requires question { is_question call ≡ true }
    requires registers { RegistersFit heap.now.geometry.registers call }
    ensures { result ≡ said (asked heap.now seat call) }
{
    let holds = match call {
        Call::Same { a, b } => heap.same(seat, a, b),
        Call::IsNull { reg } => heap.is_null(seat, reg),
        _ => false,
    };
    if holds { Reply::Yes } else { Reply::No }
}
