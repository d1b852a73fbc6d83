//! Calls that are refused, and what a pass tells of itself.
ghost use Rattle.std.specs.Prelude.{◌≡◌, ◌<◌};

use super::open_two;
use crate::{HeapError, Steps};
use hk_words::Geometry;
use std::marker::Brand;
use std::process::Abort;
use std::sync::ledger::{Blank, Ledger};
use std::test::Fail;

fn refused<L: Ledger>(rt: &(impl Abort + AllocGlobal), blank: Blank) -> Result<(), Fail>
    requires name { blank.name ≡ L.name }
    requires parts { blank.parts ≡ L.parts }
    requires some { 0 < L.parts }
{
    let g = Geometry::new(8, 16, 8, 1, 1, 1, 0)?;
    let (heap, high, mut low, _keeper) = open_two(rt.alloc(), g)?;
    let mut steps = Steps::<L>::new(blank);
    assert!(rt; heap.geometry() == g);
    assert!(rt; high.high() && high.seat() == 0);
    assert!(rt; !low.high() && low.seat() == 1);
    assert_eq!(rt; heap.get(&mut low, 1, 0, &mut steps), Err(HeapError::Nil));
    assert_eq!(rt; heap.get(&mut low, 0, 0, &mut steps), Err(HeapError::Field));
    assert_eq!(rt;
        heap.put(&mut low, 1, 0, 1, &mut steps),
        Err(HeapError::Nil)
    );
    assert_eq!(rt;
        heap.load(&mut low, 1, 0, 1, &mut steps),
        Err(HeapError::Field)
    );
    assert_eq!(rt;
        heap.store(&mut low, 0, 1, 0, &mut steps),
        Err(HeapError::Field)
    );
    Ok(())
}

#[test]
fn null_registers_and_missing_fields(rt: HostRuntime) -> Result<(), Fail> {
    refused::<Brand>(&rt, Blank::new(1))
}
