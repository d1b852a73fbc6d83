//! News until there is no room.
ghost use Rattle.std.specs.Prelude.{◌≡◌, ◌<◌};
ghost use Rattle.hk_table.specs.Passes.{IsPassOf};

use super::open_two;
use crate::{Heap, HeapError, Pass, Steps, close};
use hk_words::{Geometry, Shape};
use std::marker::Brand;
use std::process::Abort;
use std::sync::ledger::{Blank, Ledger};
use std::test::Fail;

/// Makes four objects of two words each; the fifth finds no room.
fn fill<L: Ledger>(
    rt: &impl Abort,
    heap: &Heap,
    pass: &mut Pass,
    shape: Shape,
    words: u64,
    steps: &mut Steps<L>,
)
    requires pass { IsPassOf heap.now pass.old }
    requires registers { 1 < heap.now.geometry.registers }
    ensures pass { IsPassOf heap.now pass.new }
    ensures number { pass.new.number ≡ pass.old.number }
{
    assert!(rt; heap.make(pass, 1, shape, steps).is_ok());
    assert!(rt; heap.make(pass, 1, shape, steps).is_ok());
    assert!(rt; heap.make(pass, 1, shape, steps).is_ok());
    assert!(rt; heap.make(pass, 1, shape, steps).is_ok());
    assert_eq!(rt;
        heap.make(pass, 1, shape, steps),
        Err(HeapError::Full { words })
    );
}

fn low_first<L: Ledger>(rt: &(impl Abort + AllocGlobal), blank: Blank) -> Result<(), Fail>
    requires name { blank.name ≡ L.name }
    requires parts { blank.parts ≡ L.parts }
    requires some { 0 < L.parts }
{
    let g = Geometry::new(8, 16, 8, 1, 1, 1, 0)?;
    let shape = Shape::new(1, 0).ok_or("no shape")?;
    let (heap, mut high, mut low, keeper) = open_two(rt.alloc(), g)?;
    let mut steps = Steps::<L>::new(blank);
    fill(rt, &heap, &mut low, shape, 8, &mut steps);
    fill(rt, &heap, &mut high, shape, 16, &mut steps);
    let closed = close(heap, vec![in rt.alloc(); high, low]?, keeper);
    assert_eq!(rt; closed.reserved(), 0);
    Ok(())
}

#[test]
fn reserve_is_for_the_high_pass(rt: HostRuntime) -> Result<(), Fail> {
    low_first::<Brand>(&rt, Blank::new(1))
}
