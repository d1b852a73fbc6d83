//! Cycles of the collector that were worked out by hand, with a task beside it.
use super::aids::{DONE, STORE, begin, make, rest, step, tiny, useful, whole, word_at};
use crate::{OwnedHeap, Work};
use hk_core::Step;
use hk_words::{Call, Geometry};
use std::alloc::Global;
use std::process::Abort;
use std::test::Fail;

/// The greatest number of reserved words that the collector shows until it flips the spaces.
fn most_reserved(rt: &impl Abort, heap: &mut OwnedHeap) -> u64 {
    let mut most = heap.reserved();
    for _ in 0..1000 {
        if heap.collect() == Work::Flipped {
            return most;
        }
        most = most.max(heap.reserved());
    }
    panic!(rt; "no flip")
}

/// The collector waits for a store that it meets in the middle, and copies what the store wrote. Up to the board's header
/// it does 15 events: the frame word, the board's register in four, seven null registers, the exchange, W1 and the link
/// word. After the store it does five more: the header, the cell, its claim, the copy and the exchange.
#[test]
fn store_while_moved(rt: HostRuntime) -> Result<(), Fail> {
    let mut heap = tiny(rt.alloc())?;
    assert_eq!(rt; begin(&rt, &mut heap, 0, STORE), Ok(()));
    assert_eq!(rt; step(&rt, &mut heap, 0), Step::Going);
    assert_eq!(rt; heap.collect(), Work::Flipped);
    useful(&rt, &mut heap, 15);
    for _ in 0..100 {
        assert_eq!(rt; heap.collect(), Work::BusyObject(0));
    }
    assert_eq!(rt; rest(&rt, &mut heap, 0), Some((6, DONE)));
    useful(&rt, &mut heap, 5);
    // The copy stands at the first word of space 0, whose place is 1; its cell is the next word.
    assert_eq!(rt; word_at(&rt, &heap, 2), 1 + (1 << 20));
    Ok(())
}

/// A store after the board's null cell was copied: the attempt of the header, the cell, the copy and the exchange is lost.
#[test]
fn store_spoils_the_copy(rt: HostRuntime) -> Result<(), Fail> {
    let mut heap = tiny(rt.alloc())?;
    assert_eq!(rt; heap.collect(), Work::Flipped);
    useful(&rt, &mut heap, 18);
    assert_eq!(rt; whole(&rt, &mut heap, 0, STORE), Some((7, DONE)));
    assert_eq!(rt; heap.collect(), Work::Lost(4));
    Ok(())
}

/// The board and another object are live, four words where two were declared. The collector finds it after 15 events: the
/// frame word, the board's register in four, the other one in three since its place doesn't fit, six null registers and the
/// exchange.
#[test]
fn more_live_than_declared(rt: HostRuntime) -> Result<(), Fail> {
    let g = Geometry::new(2, 16, 0, 1, 0, 1, 0)?;
    let mut heap = OwnedHeap::open(rt.alloc(), g)?;
    assert_eq!(rt; whole(&rt, &mut heap, 0, make(1)?), Some((7, DONE)));
    assert_eq!(rt; heap.collect(), Work::Flipped);
    useful(&rt, &mut heap, 15);
    for _ in 0..10 {
        assert_eq!(rt; heap.collect(), Work::LiveOver(4));
    }
    Ok(())
}

/// A heap in which seat 0 has made an object in register 1, and the spaces were flipped.
fn flipped(rt: &impl Abort, alloc: Global) -> Result<OwnedHeap, Fail> {
    let mut heap = tiny(alloc)?;
    assert_eq!(rt; whole(rt, &mut heap, 0, make(1)?), Some((7, DONE)));
    assert_eq!(rt; heap.collect(), Work::Flipped);
    Ok(heap)
}

const CLEAR: Call = Call::Clear { dest: 1 };

/// An object that is let go before the collector comes to it is never reserved: the board has two words.
#[test]
fn let_go_before_it_is_claimed(rt: HostRuntime) -> Result<(), Fail> {
    let mut heap = flipped(&rt, rt.alloc())?;
    assert_eq!(rt; whole(&rt, &mut heap, 0, CLEAR), Some((1, DONE)));
    assert_eq!(rt; most_reserved(&rt, &mut heap), 2);
    Ok(())
}

/// One that was reserved before it is let go stays reserved in that cycle, and in the next one no more.
#[test]
fn let_go_once_it_is_reserved(rt: HostRuntime) -> Result<(), Fail> {
    let mut heap = flipped(&rt, rt.alloc())?;
    for _ in 0..100 {
        if heap.reserved() == 4 {
            break;
        }
        heap.collect();
    }
    assert_eq!(rt; heap.reserved(), 4);
    assert_eq!(rt; whole(&rt, &mut heap, 0, CLEAR), Some((1, DONE)));
    assert_eq!(rt; most_reserved(&rt, &mut heap), 4);
    assert_eq!(rt; most_reserved(&rt, &mut heap), 2);
    Ok(())
}
