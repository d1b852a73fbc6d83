//! What the collector answers where a call is in its way, and where there are no more cycles: each worked out by hand.
use super::aids::{DONE, STORE, begin, rest, step, tiny, useful, word_at};
use crate::{OwnedHeap, Work};
use hk_core::Step;
use hk_words::{Call, Geometry};
use std::test::Fail;

/// The collector waits at the frame of a task that is inside it, here between the places of a Move, and goes past it once
/// the task has left: the frame word, the board's register in four, seven null registers and the exchange.
#[test]
fn busy_frame(rt: HostRuntime) -> Result<(), Fail> {
    let mut heap = tiny(rt.alloc())?;
    let copy = Call::Move { dest: 1, from: 1 };
    assert_eq!(rt; begin(&rt, &mut heap, 0, copy), Ok(()));
    assert_eq!(rt; step(&rt, &mut heap, 0), Step::Going);
    assert_eq!(rt; heap.collect(), Work::Flipped);
    for _ in 0..10 {
        assert_eq!(rt; heap.collect(), Work::BusyFrame(0));
    }
    assert_eq!(rt; rest(&rt, &mut heap, 0), Some((2, DONE)));
    useful(&rt, &mut heap, 13);
    Ok(())
}

/// A store that is stopped after each of its places finds the collector at all three. It claims the board, so the collector
/// neither claims it from the frame nor reserves a place: the frame word, the board's register in two, seven null registers,
/// the exchange, W1 and the mark of the board, whose header still shows the old space. Once the store has reserved the two
/// words, the collector finds no link word there; once it has written that, the store is inside the board; once it is done,
/// the collector moves the board: the header, the cell, its claim, the copy and the exchange.
#[test]
fn grey_unlinked_and_busy(rt: HostRuntime) -> Result<(), Fail> {
    let mut heap = tiny(rt.alloc())?;
    assert_eq!(rt; begin(&rt, &mut heap, 0, STORE), Ok(()));
    assert_eq!(rt; heap.collect(), Work::Flipped);
    for _ in 0..3 {
        assert_eq!(rt; step(&rt, &mut heap, 0), Step::Going);
    }
    useful(&rt, &mut heap, 13);
    assert_eq!(rt; heap.collect(), Work::Grey(0));
    for _ in 0..10 {
        useful(&rt, &mut heap, 2);
        assert_eq!(rt; heap.collect(), Work::Grey(0));
    }
    assert_eq!(rt; step(&rt, &mut heap, 0), Step::Going);
    for _ in 0..10 {
        useful(&rt, &mut heap, 1);
        assert_eq!(rt; heap.collect(), Work::Unlinked(1));
    }
    assert_eq!(rt; step(&rt, &mut heap, 0), Step::Going);
    useful(&rt, &mut heap, 2);
    for _ in 0..10 {
        assert_eq!(rt; heap.collect(), Work::BusyObject(0));
    }
    assert_eq!(rt; rest(&rt, &mut heap, 0), Some((2, DONE)));
    useful(&rt, &mut heap, 5);
    assert_eq!(rt; word_at(&rt, &heap, 2), 1 + (1 << 20));
    Ok(())
}

/// The smallest heap that there is, collected until its cycles are spent: from cycle 1 to cycle 1,048,575 there are
/// 1,048,574 flips. Then nothing happens any more.
#[test]
fn worn(rt: HostRuntime) -> Result<(), Fail> {
    let g = Geometry::wide(2, 2, 16, 0, 1, 0, 0, 1)?;
    let mut heap = OwnedHeap::open(rt.alloc(), g)?;
    let mut flips: u32 = 0;
    for _ in 0..200_000_000 {
        match heap.collect() {
            Work::Useful => {}
            Work::Flipped => flips = flips.wrapping_add(1),
            Work::Worn => break,
            work => panic!(&rt; "{work:?}"),
        }
    }
    assert_eq!(rt; flips, 1_048_574);
    assert_eq!(rt; heap.cycle(), 1_048_575);
    let spot = heap.spot();
    assert_eq!(rt; heap.collect(), Work::Worn);
    assert_eq!(rt; heap.spot(), spot);
    Ok(())
}
