//! A call of a seat on the heap of one owner, from its begin to its end.
use hk_collect::OwnedHeap;
use hk_core::{Outcome, Step};
use hk_words::Call;

/// Begins a call of a seat and steps it to its end: how it ended. None where it was not begun, and nothing was changed.
pub fn run(heap: &mut OwnedHeap, seat: u8, call: Call) -> Option<Outcome> {
    if !begin(heap, seat, call) {
        return None;
    }
    for _place in 0..call.places() {
        match step(heap, seat) {
            Some(Step::Going) => {}
            Some(Step::Ended(outcome)) => return Some(outcome),
            None => return None,
        }
    }
    None
}

/// The begin of a call; whether it was begun. What `OwnedHeap::begin` asks for is tested first: the seat is there and idle, the
/// registers are in range, and the call is no question.
fn begin(heap: &mut OwnedHeap, seat: u8, call: Call) -> bool {
    let g = heap.geometry();
    if seat >= g.tasks() || heap.flight(seat).place != 0 || !call.registers_fit(g.registers()) {
        return false;
    }
    match call {
        Call::Same { .. } | Call::IsNull { .. } => false,
        _ => heap.begin(seat, call).is_ok(),
    }
}

/// One step of a seat that has a call in flight.
fn step(heap: &mut OwnedHeap, seat: u8) -> Option<Step> {
    if seat >= heap.geometry().tasks() || heap.flight(seat).place == 0 {
        return None;
    }
    Some(heap.step(seat))
}

/// The register of a seat is null. So is one that isn't there.
pub fn is_null(heap: &OwnedHeap, seat: u8, reg: u8) -> bool {
    let g = heap.geometry();
    if seat >= g.tasks() || reg >= g.registers() {
        return true;
    }
    heap.is_null(seat, reg)
}
