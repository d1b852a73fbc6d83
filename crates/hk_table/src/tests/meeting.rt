//! Two passes that meet on the board.
ghost use Rattle.std.specs.Prelude.{◌≡◌, ◌<◌};

use super::open_two;
use crate::{HeapError, Steps};
use hk_words::{Geometry, Shape};
use std::marker::Brand;
use std::process::Abort;
use std::sync::ledger::{Blank, Ledger};
use std::test::Fail;

/// The low pass learns a note of the high one, and loads what it stored.
fn learn<L: Ledger>(rt: &(impl Abort + AllocGlobal), blank: Blank) -> Result<(), Fail>
    requires name { blank.name ≡ L.name }
    requires parts { blank.parts ≡ L.parts }
    requires some { 0 < L.parts }
{
    let g = Geometry::new(8, 16, 8, 1, 1, 1, 0)?;
    let shape = Shape::new(1, 0).ok_or("no shape")?;
    let (heap, mut high, mut low, _keeper) = open_two(rt.alloc(), g)?;
    let mut steps = Steps::<L>::new(blank);
    assert!(rt; heap.make(&mut high, 1, shape, &mut steps).is_ok());
    assert!(rt; heap.store(&mut high, 0, 0, 1, &mut steps).is_ok());
    let note = heap.note(&mut high);
    heap.learn(&mut low, note);
    assert!(rt; heap.load(&mut low, 2, 0, 0, &mut steps).is_ok());
    assert!(rt; !heap.is_null(&low, 2));
    assert_eq!(rt; heap.get(&mut low, 2, 0, &mut steps), Err(HeapError::Field));
    assert!(rt; heap.load(&mut low, 3, 2, 0, &mut steps).is_ok());
    assert!(rt; heap.is_null(&low, 3));
    Ok(())
}

/// Each stores an object of its own where the other finds it, and each writes into the other's.
fn exchange<L: Ledger>(rt: &(impl Abort + AllocGlobal), blank: Blank) -> Result<(), Fail>
    requires name { blank.name ≡ L.name }
    requires parts { blank.parts ≡ L.parts }
    requires some { 0 < L.parts }
{
    let g = Geometry::new(8, 32, 8, 1, 1, 2, 0)?;
    let shape = Shape::new(0, 1).ok_or("no shape")?;
    let (heap, mut high, mut low, _keeper) = open_two(rt.alloc(), g)?;
    let mut steps = Steps::<L>::new(blank);
    assert!(rt; heap.make(&mut high, 1, shape, &mut steps).is_ok());
    assert!(rt; heap.store(&mut high, 0, 0, 1, &mut steps).is_ok());
    assert!(rt; heap.make(&mut low, 1, shape, &mut steps).is_ok());
    assert!(rt; heap.store(&mut low, 0, 1, 1, &mut steps).is_ok());
    assert!(rt; heap.load(&mut high, 2, 0, 1, &mut steps).is_ok());
    assert!(rt; heap.load(&mut low, 2, 0, 0, &mut steps).is_ok());
    assert!(rt; heap.put(&mut high, 2, 0, 7, &mut steps).is_ok());
    assert!(rt; heap.put(&mut low, 2, 0, 9, &mut steps).is_ok());
    assert_eq!(rt; heap.get(&mut high, 1, 0, &mut steps), Ok(9));
    assert_eq!(rt; heap.get(&mut low, 1, 0, &mut steps), Ok(7));
    assert!(rt; heap.shift(&mut low, 3, 1, &mut steps).is_ok());
    assert!(rt; heap.same(&low, 3, 1));
    assert!(rt; !heap.same(&low, 3, 2));
    assert!(rt; heap.clear(&mut low, 3, &mut steps).is_ok());
    assert!(rt; heap.is_null(&low, 3));
    Ok(())
}

#[test]
fn a_note_is_learned(rt: HostRuntime) -> Result<(), Fail> {
    learn::<Brand>(&rt, Blank::new(1))
}

#[test]
fn passes_write_into_each_others_objects(rt: HostRuntime) -> Result<(), Fail> {
    exchange::<Brand>(&rt, Blank::new(1))
}
