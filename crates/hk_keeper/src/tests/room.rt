//! Room that the collector makes.
ghost use Rattle.std.specs.Prelude.{◌≡◌, ◌<◌, ◌≤◌};
ghost use Rattle.hk_table.specs.Passes.{IsPassOf};

use super::{answers, open_two, until_flipped};
use crate::Work;
use hk_table::{Heap, HeapError, Pass, Steps};
use hk_words::{Geometry, Shape};
use std::marker::Brand;
use std::process::Abort;
use std::sync::ledger::{Blank, Ledger};
use std::test::Fail;

/// Makes four objects of two words each, which cuts off the ones before; the fifth finds no room.
fn fill<L: Ledger>(
    rt: &impl Abort,
    heap: &Heap,
    pass: &mut Pass,
    shape: Shape,
    words: u64,
    steps: &mut Steps<L>,
)
    requires pass { IsPassOf heap.now pass.old }
    requires registers { 1 < heap.now.geometry.registers }
    ensures { IsPassOf heap.now pass.new }
{
    assert!(rt; heap.make(pass, 1, shape, steps).is_ok());
    assert!(rt; heap.make(pass, 1, shape, steps).is_ok());
    assert!(rt; heap.make(pass, 1, shape, steps).is_ok());
    assert!(rt; heap.make(pass, 1, shape, steps).is_ok());
    assert_eq!(rt;
        heap.make(pass, 1, shape, steps),
        Err(HeapError::Full { words })
    );
}

/// Both passes fill the heap, first the low one up to the reserve. With the flip, which is one event, there is room for the
/// low pass.
fn filled_by_both<L: Ledger>(rt: &(impl Abort + AllocGlobal), blank: Blank) -> Result<(), Fail>
    requires name { blank.name ≡ L.name }
    requires parts { blank.parts ≡ L.parts }
    requires some { 0 < L.parts }
{
    let g = Geometry::new(8, 16, 8, 1, 1, 1, 0)?;
    let shape = Shape::new(1, 0).ok_or("no shape")?;
    let (heap, mut high, mut low, mut keeper) = open_two(rt, g)?;
    let mut steps = Steps::<L>::new(blank);
    fill(rt, &heap, &mut low, shape, 8, &mut steps);
    fill(rt, &heap, &mut high, shape, 16, &mut steps);
    answers(rt, &heap, &mut keeper, 1, Work::Flipped, &mut steps);
    assert_eq!(rt; heap.make(&mut low, 1, shape, &mut steps), Ok(()));
    Ok(())
}

/// The low pass fills its part of the heap. Two flips later all but its last object are gone, and there is as much room as
/// there was.
fn filled_again<L: Ledger>(
    rt: &(impl Abort + AllocGlobal),
    budget: u32,
    blank: Blank,
) -> Result<(), Fail>
    requires budget { 1 ≤ budget }
    requires name { blank.name ≡ L.name }
    requires parts { blank.parts ≡ L.parts }
    requires some { 0 < L.parts }
{
    let g = Geometry::new(8, 16, 8, 1, 1, 1, 0)?;
    let shape = Shape::new(1, 0).ok_or("no shape")?;
    let (heap, _high, mut low, mut keeper) = open_two(rt, g)?;
    let mut steps = Steps::<L>::new(blank);
    fill(rt, &heap, &mut low, shape, 8, &mut steps);
    until_flipped(rt, &heap, &mut keeper, budget, &mut steps);
    until_flipped(rt, &heap, &mut keeper, budget, &mut steps);
    fill(rt, &heap, &mut low, shape, 8, &mut steps);
    assert!(rt; heap.load(&mut low, 2, 1, 0, &mut steps).is_ok());
    assert!(rt; heap.is_null(&low, 2));
    Ok(())
}

/// After one event.
#[test]
fn room_after_the_flip(rt: HostRuntime) -> Result<(), Fail> {
    filled_by_both::<Brand>(&rt, Blank::new(1))
}

/// Event by event.
#[test]
fn room_after_events_of_one(rt: HostRuntime) -> Result<(), Fail> {
    filled_again::<Brand>(&rt, 1, Blank::new(1))
}

/// In turns of 64 events.
#[test]
fn room_after_turns_of_64(rt: HostRuntime) -> Result<(), Fail> {
    filled_again::<Brand>(&rt, 64, Blank::new(1))
}
