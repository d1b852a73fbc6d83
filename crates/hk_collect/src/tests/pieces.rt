//! Calls in one piece, beside the same calls by begin and steps on another heap.
use super::aids::{begin, drawn_call, flight, rest, step};
use crate::OwnedHeap;
use hk_core::{Fault, Outcome};
use hk_words::{Call, Draws, Geometry, Reply};
use std::process::Abort;
use std::test::Fail;

/// A call of a seat in one piece.
fn piece(rt: &impl Abort, heap: &mut OwnedHeap, seat: u8, call: Call) -> Result<Outcome, Fault> {
    assert!(rt; seat < heap.geometry().tasks());
    assert!(rt; heap.flight(seat).place == 0);
    assert!(rt; call.registers_fit(heap.geometry().registers()));
    let done = Outcome::Done(Reply::Unit);
    match call {
        Call::Get { reg, field } => match heap.get(seat, reg, field) {
            Ok(number) => Ok(Outcome::Done(Reply::Num(number))),
            Err(fault) => Err(fault),
        },
        Call::Put { reg, field, value } => heap.put(seat, reg, field, value).map(|_| done),
        Call::Load { dest, reg, field } => heap.load(seat, dest, reg, field).map(|_| done),
        Call::Store { reg, field, from } => heap.store(seat, reg, field, from).map(|_| done),
        Call::Move { dest, from } => heap.shift(seat, dest, from).map(|_| done),
        Call::Clear { dest } => heap.clear(seat, dest).map(|_| done),
        Call::New { dest, shape } => heap.make(seat, dest, shape),
        Call::Same { .. } | Call::IsNull { .. } => panic!(rt; "a question"),
    }
}

/// The same call by its begin and its steps.
fn stepped(
    rt: &impl Abort,
    heap: &mut OwnedHeap,
    seat: u8,
    call: Call,
) -> Result<Option<Outcome>, Fault> {
    begin(rt, heap, seat, call)?;
    Ok(rest(rt, heap, seat).map(|(_, outcome)| outcome))
}

/// Two heaps have the same words, the same flights and the same spot.
fn agree(rt: &impl Abort, a: &OwnedHeap, b: &OwnedHeap) {
    let g = a.geometry();
    assert!(rt; b.geometry() == g);
    for index in 0..g.words() {
        assert!(rt; a.word(index) == b.word(index), "word {index}");
    }
    for seat in 0..g.tasks() {
        assert!(rt; flight(rt, a, seat) == flight(rt, b, seat), "seat {seat}");
    }
    assert!(rt; a.spot() == b.spot());
}

/// A seat that goes step by step, or begins a call.
fn aside(rt: &impl Abort, heap: &mut OwnedHeap, seat: u8, call: Call) {
    if flight(rt, heap, seat).place == 0 {
        let _begun = begin(rt, heap, seat, call);
    } else {
        step(rt, heap, seat);
    }
}

/// So many drawn calls of two seats on two heaps: one does each call in one piece, the other step by step. Between the calls
/// there are events of the collector, and steps of a third seat, so that its calls are in flight. How many calls were done,
/// refused, and found no room.
fn walk(
    rt: &impl Abort,
    one: &mut OwnedHeap,
    other: &mut OwnedHeap,
    draws: &mut Draws,
    calls: u32,
) -> (u32, u32, u32) {
    let (mut done, mut refused, mut full) = (0u32, 0u32, 0u32);
    for _call in 0..calls {
        let seat = draws.below(2) as u8;
        let call = drawn_call(draws, 8);
        let ended = piece(rt, one, seat, call);
        match stepped(rt, other, seat, call) {
            Ok(outcome) => assert!(rt; outcome == ended.ok(), "{call:?}"),
            Err(fault) => assert!(rt; ended == Err(fault), "{call:?}"),
        }
        match ended {
            Ok(Outcome::Done(_)) => done = done.wrapping_add(1),
            Ok(Outcome::Full { .. }) => full = full.wrapping_add(1),
            Err(_) => refused = refused.wrapping_add(1),
        }
        for _event in 0..draws.below(12) {
            assert!(rt; one.collect() == other.collect());
        }
        let call = drawn_call(draws, 8);
        aside(rt, one, 2, call);
        aside(rt, other, 2, call);
        agree(rt, one, other);
    }
    (done, refused, full)
}

#[test]
fn a_call_in_one_piece_leaves_what_its_steps_leave(rt: HostRuntime) -> Result<(), Fail> {
    for number in 0..4 {
        let g = Geometry::new(16, 16, 6, 1, 2, 2, 2)?;
        let mut one = OwnedHeap::open(rt.alloc(), g)?;
        let mut other = OwnedHeap::open(rt.alloc(), g)?;
        let mut draws = Draws { state: number };
        let (done, refused, full) = walk(&rt, &mut one, &mut other, &mut draws, 400);
        assert!(rt;
            done > 100 && refused > 20 && full > 20,
            "{done} {refused} {full}"
        );
        assert!(rt; one.cycle() > 2);
    }
    Ok(())
}
