//! Ticks of operations and of questions, and the choice of the first row.
ghost use Rattle.std.specs.Prelude.{◌<◌};

mod attempts;
mod choices;
mod counts;
mod rows;
mod walks;
mod watch;
mod written;

use crate::{First, Left, Pick, Ready, ask, operate};
use hk_collect::OwnedHeap;
use hk_core::Fault;
use hk_words::{Call, Geometry, Reply, Shape};
use std::alloc::Global;
use std::process::Abort;
use std::test::Fail;

/// A heap of two high tasks and a low one. The board has one reference field, and register 0 of each task refers to it.
fn heap_of_three(alloc: Global) -> Result<OwnedHeap, &'static str> {
    let g = Geometry::new(8, 16, 4, 2, 1, 1, 0).or(Err("a geometry"))?;
    OwnedHeap::open(alloc, g).or(Err("no memory"))
}

/// The first tick of an operation.
#[tactic(auto, using(crate::proofs::Begun::aside_first))]
fn first(rt: &impl Abort, heap: &mut OwnedHeap, seat: u8, call: Call) -> Left {
    assert!(rt; seat < heap.geometry().tasks());
    assert!(rt; heap.flight(seat).place == 0);
    assert!(rt; call.registers_fit(heap.geometry().registers()));
    match call {
        Call::Same { .. } | Call::IsNull { .. } => panic!(rt; "a question"),
        _ => operate(heap, seat, call, 0),
    }
}

/// A question of a task.
fn question(rt: &impl Abort, heap: &OwnedHeap, seat: u8, call: Call) -> Reply {
    assert!(rt; seat < heap.geometry().tasks());
    assert!(rt; call.registers_fit(heap.geometry().registers()));
    match call {
        Call::Same { .. } | Call::IsNull { .. } => ask(heap, seat, call),
        _ => panic!(rt; "no question"),
    }
}

/// The place of a task's call in flight, 0 where there is none.
fn place(rt: &impl Abort, heap: &OwnedHeap, seat: u8) -> u8 {
    assert!(rt; seat < heap.geometry().tasks());
    heap.flight(seat).place
}

#[test]
fn first_ticks(rt: HostRuntime) -> Result<(), Fail> {
    let mut heap = heap_of_three(rt.alloc())?;
    // A Clear has one place, a Move three.
    assert_eq!(rt;
        first(&rt, &mut heap, 0, Call::Clear { dest: 1 }),
        Left::Passes(Reply::Unit)
    );
    assert_eq!(rt;
        first(&rt, &mut heap, 1, Call::Move { dest: 2, from: 0 }),
        Left::Stays
    );
    assert_eq!(rt; place(&rt, &heap, 1), 2);
    // What can't be begun takes the tick, and leaves nothing in flight: register 1 is null, and the board has no field 1.
    let null = Call::Load {
        dest: 2,
        reg: 1,
        field: 0,
    };
    assert_eq!(rt; first(&rt, &mut heap, 2, null), Left::Faults(Fault::Nil));
    let beyond = Call::Load {
        dest: 2,
        reg: 0,
        field: 1,
    };
    assert_eq!(rt;
        first(&rt, &mut heap, 2, beyond),
        Left::Faults(Fault::Field)
    );
    assert_eq!(rt; place(&rt, &heap, 2), 0);
    // The first place of a New looks at the words used: it goes on, whether or not there are enough.
    let shape = Shape::new(1, 0).ok_or("a shape")?;
    assert_eq!(rt;
        first(&rt, &mut heap, 2, Call::New { dest: 2, shape }),
        Left::Stays
    );
    assert_eq!(rt; heap.words_used(), 0);
    Ok(())
}

#[test]
fn questions(rt: HostRuntime) -> Result<(), Fail> {
    let heap = heap_of_three(rt.alloc())?;
    assert_eq!(rt; question(&rt, &heap, 0, Call::IsNull { reg: 0 }), Reply::No);
    assert_eq!(rt;
        question(&rt, &heap, 0, Call::IsNull { reg: 1 }),
        Reply::Yes
    );
    assert_eq!(rt;
        question(&rt, &heap, 2, Call::Same { a: 1, b: 2 }),
        Reply::Yes
    );
    assert_eq!(rt;
        question(&rt, &heap, 2, Call::Same { a: 0, b: 2 }),
        Reply::No
    );
    Ok(())
}

/// A row of a job that has just become ready.
fn row(task: u8, deadline: u64) -> Ready {
    Ready {
        task,
        job: 0,
        arrival: 0,
        deadline,
        done: 0,
    }
}

#[tactic(auto, using(crate::proofs::Begun::two_rise))]
fn choose(first: Ready, second: Ready) -> usize
    requires { first.task < second.task }
{
    First.pick(&[first, second])
}

/// The first task goes first, though the second has less time.
#[test]
fn first_row(rt: HostRuntime) -> Result<(), Fail> {
    let (early, late) = (row(0, 90), row(3, 20));
    assert!(rt; early.task < late.task);
    assert_eq!(rt; choose(early, late), 0);
    Ok(())
}
