//! Walks of the heap, beside the heap that never collects.
ghost use Rattle.std.specs.Prelude.{◌≡◌, ℕ, ◌<◌, length};
ghost use Rattle.hk_words.specs.Calls.{RegistersFit};
ghost use Rattle.hk_words.specs.declared.geometry.TheConstants.{REGISTERS};
ghost use Rattle.hk_model.specs.Heap.{register_count};

use super::aids::{DONE, begin, drawn_call, flight, is_null, make, same, step, whole};
use crate::{OwnedHeap, Work};
use hk_core::{Fault, Flight, Memory, Outcome, Step};
use hk_model::Plain;
use hk_words::{Call, Draws, Geometry, REGISTERS, Reply, Shape};
use std::alloc::Global;
use std::process::Abort;
use std::test::Fail;

/// The plain heap of three tasks.
#[derive(Drop)]
struct Mirror {
    plain: Plain,
    ghost tasks: { length plain.registers ≡ 3 },
    ghost registers: { (seat : ℕ) → seat < 3 → register_count plain seat ≡ REGISTERS },
}

impl Mirror {
    fn open(alloc: Global, board: Shape) -> Result<Mirror, Memory> {
        let plain = Plain::open(alloc, 3, board)?;
        Ok(Mirror { plain })
    }

    fn apply(&mut self, alloc: Global, seat: u8, call: Call) -> Result<Reply, Memory>
        requires seat { seat < 3 }
        requires registers { RegistersFit REGISTERS call }
    {
        self.plain.apply(alloc, seat, call)
    }
}

#[test]
fn full(rt: HostRuntime) -> Result<(), Fail> {
    let g = Geometry::new(8, 16, 8, 1, 1, 1, 0)?;
    let mut heap = OwnedHeap::open(rt.alloc(), g)?;
    let make = make(1)?;
    for (seat, words) in [(1, 8), (0, 16)] {
        for _ in 0..4 {
            assert_eq!(rt; whole(&rt, &mut heap, seat, make), Some((7, DONE)));
        }
        assert_eq!(rt;
            whole(&rt, &mut heap, seat, make),
            Some((7, Outcome::Full { words }))
        );
    }
    Ok(())
}

/// A heap of three seats, the plain heap beside it, and what the plain heap answered to each call in flight at its
/// effect; and how often the spaces were flipped, a copy was lost, a call was done and a New found no room.
#[derive(Drop)]
struct Walk {
    heap: OwnedHeap,
    mirror: Mirror,
    answered: [Option<Reply>; 3],
    flips: u32,
    lost: u32,
    done: u32,
    full: u32,
}

/// The place that the flight does next has the effect of its call.
fn has_effect(flight: &Flight) -> bool {
    match flight.call {
        Call::Get { .. } | Call::Put { .. } | Call::Move { .. } => flight.place == 2,
        Call::Clear { .. } => flight.place == 1,
        Call::Load { .. } => flight.place == 4,
        Call::Store { .. } => flight.place == 6,
        Call::New { .. } => flight.place == 6 && !flight.full,
        Call::Same { .. } | Call::IsNull { .. } => false,
    }
}

/// A call on the plain heap.
fn mirrored(
    rt: &impl Abort,
    alloc: Global,
    walk: &mut Walk,
    seat: u8,
    call: Call,
) -> Result<Reply, Memory> {
    assert!(rt; seat < 3);
    assert!(rt; call.registers_fit(REGISTERS));
    walk.mirror.apply(alloc, seat, call)
}

/// An idle seat begins a call; one that is refused is answered likewise by the plain heap.
fn begin_some(
    rt: &impl Abort,
    alloc: Global,
    walk: &mut Walk,
    seat: u8,
    call: Call,
) -> Result<(), Memory> {
    let Err(fault) = begin(rt, &mut walk.heap, seat, call) else {
        return Ok(());
    };
    let reply = mirrored(rt, alloc, walk, seat, call)?;
    let refused = match fault {
        Fault::Nil => reply == Reply::Nil,
        Fault::Field => reply == Reply::Field,
        Fault::Spent => false,
    };
    assert!(rt;
        refused,
        "a begin is refused otherwise than on the plain heap"
    );
    Ok(())
}

/// The registers of a seat are null, and the same as one another, where those of the plain heap are.
fn compare(rt: &impl Abort, alloc: Global, walk: &mut Walk, seat: u8) -> Result<(), Memory> {
    for reg in 0..4 {
        let other = (reg + 1) % 4;
        let plain_null = mirrored(rt, alloc, walk, seat, Call::IsNull { reg })? == Reply::Yes;
        let plain_same = mirrored(rt, alloc, walk, seat, Call::Same { a: reg, b: other })?
            == Reply::Yes;
        assert!(rt;
            is_null(rt, &walk.heap, seat, reg) == plain_null,
            "null otherwise than on the plain heap"
        );
        assert!(rt;
            same(rt, &walk.heap, seat, reg, other) == plain_same,
            "the same otherwise than on the plain heap"
        );
    }
    Ok(())
}

/// A step of a seat with a call in flight. At the effect of the call the plain heap does it too; at the end of the call
/// its reply is that of the plain heap.
fn step_some(
    rt: &impl Abort,
    alloc: Global,
    walk: &mut Walk,
    flight: &Flight,
) -> Result<(), Memory> {
    let seat = flight.seat;
    assert!(rt; seat < 3);
    if has_effect(flight) {
        walk.answered[seat as usize] = Some(mirrored(rt, alloc, walk, seat, flight.call)?);
    }
    let answered = walk.answered[seat as usize];
    match step(rt, &mut walk.heap, seat) {
        Step::Going => {}
        Step::Ended(outcome) => {
            walk.answered[seat as usize] = None;
            ended(rt, walk, outcome, answered);
            compare(rt, alloc, walk, seat)?;
        }
    }
    Ok(())
}

/// A call that ended has the reply of the plain heap; a New that found no room has no effect.
fn ended(rt: &impl Abort, walk: &mut Walk, outcome: Outcome, answered: Option<Reply>) {
    match outcome {
        Outcome::Done(reply) => {
            assert!(rt;
                answered == Some(reply),
                "another reply than the plain heap's"
            );
            walk.done = walk.done.wrapping_add(1);
        }
        Outcome::Full { .. } => {
            assert!(rt;
                answered.is_none(),
                "a New that found no room did something"
            );
            walk.full = walk.full.wrapping_add(1);
        }
    }
}

/// The walk before its first action.
fn walk_of(alloc: Global, g: Geometry) -> Result<Walk, Memory> {
    Ok(Walk {
        heap: OwnedHeap::open(alloc, g)?,
        mirror: Mirror::open(alloc, g.board())?,
        answered: [None; 3],
        flips: 0,
        lost: 0,
        done: 0,
        full: 0,
    })
}

/// One action of a seat: a begin of one of the first so many kinds of calls where it is idle, and else a step.
fn act(
    rt: &impl Abort,
    alloc: Global,
    walk: &mut Walk,
    draws: &mut Draws,
    seat: u8,
    kinds: u64,
) -> Result<(), Memory>
    requires { 0 < kinds }
{
    let flight = flight(rt, &walk.heap, seat);
    if flight.place == 0 {
        let call = drawn_call(draws, kinds);
        begin_some(rt, alloc, walk, seat, call)
    } else {
        step_some(rt, alloc, walk, &flight)
    }
}

/// One action of a seat, or one event of the collector.
fn act_or_collect(
    rt: &impl Abort,
    alloc: Global,
    walk: &mut Walk,
    draws: &mut Draws,
) -> Result<(), Memory> {
    let seat = draws.below(5) as u8;
    if seat < 3 {
        return act(rt, alloc, walk, draws, seat, 7);
    }
    match walk.heap.collect() {
        Work::Flipped => walk.flips = walk.flips.wrapping_add(1),
        Work::Lost(_) => walk.lost = walk.lost.wrapping_add(1),
        _ => {}
    }
    Ok(())
}

#[test]
fn replies_of_the_plain_heap(rt: HostRuntime) -> Result<(), Fail> {
    for number in 1..4 {
        let g = Geometry::new(64, 64, 16, 2, 1, 2, 1)?;
        let mut walk = walk_of(rt.alloc(), g)?;
        let mut draws = Draws { state: number };
        for _ in 0..20_000 {
            act_or_collect(&rt, rt.alloc(), &mut walk, &mut draws)?;
        }
        assert!(rt;
            walk.flips > 5 && walk.lost > 5 && walk.done > 1000 && walk.full > 5,
            "in walk {number}"
        );
    }
    Ok(())
}

/// More than 200 whole cycles of three seats and the collector on a tiny heap, in walks of 5,000 actions: each flip after
/// the first of a walk ends one.
#[test]
fn many_cycles(rt: HostRuntime) -> Result<(), Fail> {
    let g = Geometry::new(24, 32, 8, 2, 1, 2, 1)?;
    let mut whole: u32 = 0;
    for number in 1..101 {
        let mut walk = walk_of(rt.alloc(), g)?;
        let mut draws = Draws { state: number };
        for _ in 0..5_000 {
            act_or_collect(&rt, rt.alloc(), &mut walk, &mut draws)?;
        }
        whole = whole.wrapping_add(walk.flips.saturating_sub(1));
    }
    assert!(rt; whole > 200, "{whole} cycles");
    Ok(())
}

/// Three seats alone: calls that go through no reference cell, and calls of all kinds, until the heap is full.
#[test]
fn replies_without_a_collector(rt: HostRuntime) -> Result<(), Fail> {
    for (kinds, actions, fills) in [(4, 2_000, false), (7, 5_000, true)] {
        let g = Geometry::new(64, 64, 16, 2, 1, 2, 1)?;
        let mut walk = walk_of(rt.alloc(), g)?;
        let mut draws = Draws { state: kinds };
        for _ in 0..actions {
            let seat = draws.below(3) as u8;
            act(&rt, rt.alloc(), &mut walk, &mut draws, seat, kinds)?;
        }
        assert!(rt;
            walk.flips == 0 && walk.done > 300 && (walk.full > 5) == fills,
            "with {kinds} kinds of calls"
        );
    }
    Ok(())
}

/// A call of a seat, with so many events of the collector among its steps: first one of these, then a step, and so on.
fn call_among_events(
    rt: &impl Abort,
    alloc: Global,
    walk: &mut Walk,
    draws: &mut Draws,
    seat: u8,
    events: u32,
) -> Result<(), Memory> {
    let call = drawn_call(draws, 7);
    begin_some(rt, alloc, walk, seat, call)?;
    for turn in 0..events.max(10) {
        if turn < events && walk.heap.collect() == Work::Flipped {
            walk.flips = walk.flips.wrapping_add(1);
        }
        let flight = flight(rt, &walk.heap, seat);
        if flight.place > 0 {
            step_some(rt, alloc, walk, &flight)?;
        }
    }
    Ok(())
}

/// Five hundred calls of two seats in turn, each among four events of the collector: two thousand events, and so two cycles
/// at the least.
#[test]
fn calls_among_events(rt: HostRuntime) -> Result<(), Fail> {
    let g = Geometry::new(64, 64, 16, 2, 1, 2, 1)?;
    let mut walk = walk_of(rt.alloc(), g)?;
    let mut draws = Draws { state: 11 };
    for _ in 0..250 {
        for seat in 0..2 {
            call_among_events(&rt, rt.alloc(), &mut walk, &mut draws, seat, 4)?;
        }
    }
    assert!(rt; walk.flips >= 2 && walk.done > 300);
    Ok(())
}
