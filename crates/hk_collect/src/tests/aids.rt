//! Aids of the tests: calls on a heap whose conditions are looked at as the test runs, and calls that are drawn.
ghost use Rattle.std.specs.Prelude.{◌<◌};

use crate::{OwnedHeap, Work};
use hk_core::{Fault, Flight, Memory, Outcome, Step};
use hk_words::{Call, Draws, Geometry, Reply, Shape};
use std::alloc::Global;
use std::process::Abort;

/// The end of a call whose reply is no value.
pub const DONE: Outcome = Outcome::Done(Reply::Unit);

/// A store of the board into its own reference field.
pub const STORE: Call = Call::Store {
    reg: 0,
    field: 0,
    from: 0,
};

/// A tiny heap of one high task. The board has one reference field, so two of the eight words for evacuation are live.
pub fn tiny(alloc: Global) -> Result<OwnedHeap, &'static str> {
    let g = Geometry::new(8, 16, 0, 1, 0, 1, 0).or(Err("a geometry"))?;
    OwnedHeap::open(alloc, g).or(Err("no memory"))
}

/// A call that makes an object of two words in a register.
pub fn make(dest: u8) -> Result<Call, &'static str> {
    let shape = Shape::new(1, 0).ok_or("a shape")?;
    Ok(Call::New { dest, shape })
}

/// The begin of a call.
pub fn begin(rt: &impl Abort, heap: &mut OwnedHeap, seat: u8, call: Call) -> Result<(), Fault> {
    assert!(rt; seat < heap.geometry().tasks());
    assert!(rt; heap.flight(seat).place == 0);
    assert!(rt; call.registers_fit(heap.geometry().registers()));
    match call {
        Call::Same { .. } | Call::IsNull { .. } => panic!(rt; "a question"),
        _ => heap.begin(seat, call),
    }
}

/// One step of a seat.
pub fn step(rt: &impl Abort, heap: &mut OwnedHeap, seat: u8) -> Step {
    assert!(rt; seat < heap.geometry().tasks());
    assert!(rt; 1 <= heap.flight(seat).place);
    heap.step(seat)
}

/// The rest of a call of a seat: how many steps it takes, and how it ends.
pub fn rest(rt: &impl Abort, heap: &mut OwnedHeap, seat: u8) -> Option<(u32, Outcome)> {
    for steps in 1..20 {
        if let Step::Ended(outcome) = step(rt, heap, seat) {
            return Some((steps, outcome));
        }
    }
    None
}

/// A call of a seat, begun and stepped to its end.
pub fn whole(
    rt: &impl Abort,
    heap: &mut OwnedHeap,
    seat: u8,
    call: Call,
) -> Option<(u32, Outcome)> {
    begin(rt, heap, seat, call).ok()?;
    rest(rt, heap, seat)
}

/// The flight of a seat.
pub fn flight(rt: &impl Abort, heap: &OwnedHeap, seat: u8) -> Flight {
    assert!(rt; seat < heap.geometry().tasks());
    heap.flight(seat)
}

/// A register of a seat is null.
pub fn is_null(rt: &impl Abort, heap: &OwnedHeap, seat: u8, reg: u8) -> bool {
    let g = heap.geometry();
    assert!(rt; seat < g.tasks() && reg < g.registers());
    heap.is_null(seat, reg)
}

/// Two registers of a seat refer to one object, or are both null.
pub fn same(rt: &impl Abort, heap: &OwnedHeap, seat: u8, a: u8, b: u8) -> bool {
    let g = heap.geometry();
    assert!(rt; seat < g.tasks() && a < g.registers() && b < g.registers());
    heap.same(seat, a, b)
}

/// The word at a place of the spaces.
pub fn word_at(rt: &impl Abort, heap: &OwnedHeap, place: u32) -> u64 {
    let g = heap.geometry();
    assert!(rt; 1 <= place && place <= 2 * (g.live() + g.alloc()));
    heap.word(g.space_at(place))
}

/// So many events of the collector in a row are useful.
pub fn useful(rt: &impl Abort, heap: &mut OwnedHeap, events: u32) {
    for event in 0..events {
        let work = heap.collect();
        assert!(rt; work == Work::Useful, "event {event}: {work:?}");
    }
}

/// A register to write, one of the first four.
fn dest(draws: &mut Draws) -> u8 {
    1 + draws.below(3) as u8
}

/// A register to read, one of the first four.
fn reg(draws: &mut Draws) -> u8 {
    draws.below(4) as u8
}

fn field(draws: &mut Draws) -> u8 {
    draws.below(2) as u8
}

/// One of the first so many kinds of calls: the first four go through no reference cell and make nothing.
pub fn drawn_call(draws: &mut Draws, kinds: u64) -> Call
    requires { 0 < kinds }
{
    match draws.below(kinds) {
        0 => Call::Get {
            reg: reg(draws),
            field: field(draws),
        },
        1 => Call::Put {
            reg: reg(draws),
            field: field(draws),
            value: draws.below(1000),
        },
        2 => Call::Move {
            dest: dest(draws),
            from: reg(draws),
        },
        3 => Call::Clear { dest: dest(draws) },
        4 => Call::Load {
            dest: dest(draws),
            reg: reg(draws),
            field: field(draws),
        },
        5 => Call::Store {
            reg: reg(draws),
            field: field(draws),
            from: reg(draws),
        },
        _ => drawn_new(draws),
    }
}

fn drawn_new(draws: &mut Draws) -> Call {
    let dest = dest(draws);
    match Shape::new(draws.below(3) as u8, 1 + draws.below(2) as u8) {
        Some(shape) => Call::New { dest, shape },
        None => Call::Clear { dest },
    }
}
