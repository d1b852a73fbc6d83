//! An object that a task holds while the collector tries to move it.
use hk_collect::OwnedHeap;
use hk_core::{Fault, Flight, Outcome, Spot, Step, Work};
use hk_words::{Call, Geometry, Reply};
use std::alloc::Global;
use std::process::Abort;
use std::test::Fail;

/// A store of the board into its own reference field.
const STORE: Call = Call::Store {
    reg: 0,
    field: 0,
    from: 0,
};

/// Everything that a heap of one task is.
#[derive(Debug, PartialEq, Eq, Drop)]
struct Everything {
    words: Vec<u64>,
    flight: Flight,
    spot: Spot,
}

fn state_of(rt: &impl Abort, alloc: Global, heap: &OwnedHeap) -> Result<Everything, Fail> {
    let g = heap.geometry();
    assert!(rt; g.tasks() == 1);
    let mut words = Vec::new(alloc);
    for index in 0..g.words() {
        words.push(heap.word(index))?;
    }
    Ok(Everything {
        words,
        flight: heap.flight(0),
        spot: heap.spot(),
    })
}

/// One step of the task.
fn step(rt: &impl Abort, heap: &mut OwnedHeap) -> Step {
    assert!(rt; heap.geometry().tasks() == 1);
    assert!(rt; heap.flight(0).place > 0);
    heap.step(0)
}

/// The begin of a call of the task.
fn begin(rt: &impl Abort, heap: &mut OwnedHeap, call: Call) -> Result<(), Fault> {
    assert!(rt; heap.geometry().tasks() == 1);
    assert!(rt; heap.flight(0).place == 0);
    assert!(rt; call.registers_fit(heap.geometry().registers()));
    match call {
        Call::Same { .. } | Call::IsNull { .. } => panic!(rt; "a question"),
        _ => heap.begin(0, call),
    }
}

/// A heap of one high task, whose board has one reference field. The task's store has done its first place, by which it is
/// inside the board, and the collector has come to the board's header. That takes 16 events: the flip, the frame word, the
/// board's register in four, seven null registers, the exchange, the words reserved and the link word.
fn held(rt: &impl Abort, alloc: Global) -> Result<OwnedHeap, Fail> {
    let g = Geometry::new(8, 16, 0, 1, 0, 1, 0)?;
    let mut heap = OwnedHeap::open(alloc, g)?;
    assert_eq!(rt; begin(rt, &mut heap, STORE), Ok(()));
    assert_eq!(rt; step(rt, &mut heap), Step::Going);
    assert_eq!(rt; heap.collect(), Work::Flipped);
    for _ in 0..15 {
        assert_eq!(rt; heap.collect(), Work::Useful);
    }
    Ok(heap)
}

/// Ends the store, which has six places left, and the cycle, and tells the heap at the next flip.
fn ended(rt: &impl Abort, alloc: Global, heap: &mut OwnedHeap) -> Result<(u32, Everything), Fail> {
    for _ in 0..5 {
        assert_eq!(rt; step(rt, heap), Step::Going);
    }
    assert_eq!(rt; step(rt, heap), Step::Ended(Outcome::Done(Reply::Unit)));
    let mut events: u32 = 0;
    for _ in 0..1000 {
        match heap.collect() {
            Work::Useful => events = events.wrapping_add(1),
            work => {
                assert_eq!(rt; work, Work::Flipped);
                break;
            }
        }
    }
    assert!(rt; events < 1000);
    Ok((events, state_of(rt, alloc, heap)?))
}

/// The collector tries a hundred times to move the board that a store is inside. It waits each time, and no word, no call
/// and nothing of its own place changes. Once the store has ended, the cycle goes on as one goes in which the collector
/// tried nothing before: so many events to the flip, and the same words.
#[test]
fn waits_without_a_trace(rt: HostRuntime) -> Result<(), Fail> {
    let alloc = rt.alloc();
    let mut heap = held(&rt, alloc)?;
    let before = state_of(&rt, alloc, &heap)?;
    for _ in 0..100 {
        assert_eq!(rt; heap.collect(), Work::BusyObject(0));
        assert!(rt; state_of(&rt, alloc, &heap)? == before);
    }
    let mut other = held(&rt, alloc)?;
    let waited = ended(&rt, alloc, &mut heap)?;
    let free = ended(&rt, alloc, &mut other)?;
    assert_eq!(rt; waited.0, free.0);
    assert!(rt; waited.1 == free.1);
    Ok(())
}
