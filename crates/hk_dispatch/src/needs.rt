//! One tick of what a job wants.
ghost use Rattle.std.specs.Prelude.{◌≡◌, ◌^◌, ◌<◌, ◌≤◌, ◌&&◌, Some};
ghost use Rattle.hk_words.specs.Geometry.{tasks};
ghost use Rattle.hk_core.specs.State.{IsSized, flight_of};
ghost use Rattle.hk_dispatch.specs.Turns.{is_operation};
ghost use Rattle.hk_dispatch.specs.InStep.{SeatInStep};
ghost use Rattle.hk_dispatch.specs.Ticks.{words_by, left_by};
ghost use Rattle.hk_dispatch.specs.Told.{out_of};
ghost use Rattle.hk_dispatch.specs.TaskRuns.{MayWant, core_by, LeavesBy, heard_of, stays};

use crate::operation::{Left, ask, operate};
use hk_collect::OwnedHeap;
use hk_script::Need;
use hk_words::{Call, Reply};

/// What a statement puts out.
pub(crate) fn out_of(need: Need) -> Option<u64>
    ensures { result ≡ out_of (Some need) }
{
    match need {
        Need::Out(value) => Some(value),
        _ => None,
    }
}

/// The words that an operation takes in its next tick: those of a new object at its third place, where its first place found
/// room.
pub(crate) fn taken(heap: &OwnedHeap, seat: u8, need: Need, spent: u64) -> u32
    requires { seat < tasks heap.now.geometry }
    ensures words { result ≡ words_by heap.now seat spent (Some need) }
    ensures few { result ≤ 511 }
{
    match need {
        Need::Heap(Call::New { dest: _, shape }) if spent == 2 && !heap.flight(seat).full => {
            shape.words()
        }
        _ => 0,
    }
}

/// Does one tick of what a job wants, of which it has had so many, and answers how that leaves the job.
pub(crate) fn advance(heap: &mut OwnedHeap, seat: u8, need: Need, spent: u64) -> Left
    requires sized { IsSized heap.old }
    requires seat { seat < tasks heap.old.geometry }
    requires wants { MayWant heap.old.geometry need }
    requires in_step { SeatInStep (flight_of heap.old.flights seat) (Some need) spent }
    requires early { spent < 2 ^ 24 }
    ensures heap { heap.new ≡ core_by heap.old seat spent (Some need) }
    ensures left { result ≡ left_by heap.old seat spent (Some need) }
    ensures leaves { LeavesBy need result }
{
    match need {
        Need::Work(ticks) if spent + 1 < u64::from(ticks) => Left::Stays,
        Need::Work(_) | Need::Local | Need::Out(_) => Left::Passes(Reply::Unit),
        Need::Heap(call) => operate(heap, seat, call, spent),
        Need::Ask(call) => Left::Passes(ask(heap, seat, call)),
    }
}

/// What a walk is told of a reply. That a new object found no room sets no variable, so it goes on as from one that did.
pub(crate) fn heard(reply: Reply) -> Reply
    ensures { result ≡ heard_of reply }
{
    match reply {
        Reply::Full => Reply::Unit,
        _ => reply,
    }
}

/// Whether a tick left an operation in mid-course.
pub(crate) fn is_mid_course(need: Need, left: Left) -> bool
    ensures { result ≡ (is_operation (Some need) && stays left) }
{
    matches!(need, Need::Heap(_)) && left == Left::Stays
}
