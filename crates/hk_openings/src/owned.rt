//! The heap of one owner, opened and used.
use crate::opening::{BOARD, NUMBER, Unopened, geometry, number_line};
use hk_collect::OwnedHeap;
use hk_core::{Outcome, Step};
use hk_words::{Call, MOST_PLACES, Reply};
use std::alloc::Global;

/// The high task's seat.
const SEAT: u8 = 0;

/// A call of the seat, begun and stepped to its end. None where it wasn't begun, or found no room.
fn run(heap: &mut OwnedHeap, call: Call) -> Option<Reply> {
    let g = heap.geometry();
    if SEAT >= g.tasks() || heap.flight(SEAT).place != 0 || !call.registers_fit(g.registers()) {
        return None;
    }
    match call {
        Call::Same { .. } | Call::IsNull { .. } => return None,
        _ => heap.begin(SEAT, call).ok()?,
    }
    for _ in 0..MOST_PLACES {
        match step(heap)? {
            Step::Going => {}
            Step::Ended(Outcome::Done(reply)) => return Some(reply),
            Step::Ended(Outcome::Full { .. }) => return None,
        }
    }
    None
}

/// One step of the seat, where a call is in flight.
fn step(heap: &mut OwnedHeap) -> Option<Step> {
    if SEAT >= heap.geometry().tasks() || heap.flight(SEAT).place == 0 {
        return None;
    }
    Some(heap.step(SEAT))
}

/// The number that a new object keeps, with an event of the collector between writing and reading it.
fn kept(heap: &mut OwnedHeap) -> Option<u64> {
    run(
        heap,
        Call::New {
            dest: 1,
            shape: BOARD,
        },
    )?;
    run(
        heap,
        Call::Put {
            reg: 1,
            field: 0,
            value: NUMBER,
        },
    )?;
    heap.collect();
    match run(heap, Call::Get { reg: 1, field: 0 })? {
        Reply::Num(number) => Some(number),
        _ => None,
    }
}

/// The line of this heap.
pub fn line(alloc: Global) -> Result<String, Unopened> {
    let mut heap = OwnedHeap::open(alloc, geometry())?;
    let read = kept(&mut heap);
    Ok(number_line(alloc, "owned", read)?)
}
