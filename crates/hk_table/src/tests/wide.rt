//! Tasks with the most registers.
ghost use Rattle.std.specs.Prelude.{◌≡◌, ◌<◌};

use super::open_two;
use crate::Steps;
use hk_words::Geometry;
use std::marker::Brand;
use std::process::Abort;
use std::sync::ledger::{Blank, Ledger};
use std::test::Fail;

/// The last register of the low task has words of its own, beside those of the high one.
fn last_register<L: Ledger>(rt: &(impl Abort + AllocGlobal), blank: Blank) -> Result<(), Fail>
    requires name { blank.name ≡ L.name }
    requires parts { blank.parts ≡ L.parts }
    requires some { 0 < L.parts }
{
    let g = Geometry::wide(32, 8, 16, 8, 1, 1, 1, 0)?;
    let (heap, high, mut low, _keeper) = open_two(rt.alloc(), g)?;
    let mut steps = Steps::<L>::new(blank);
    assert!(rt; heap.shift(&mut low, 31, 0, &mut steps).is_ok());
    assert!(rt; heap.same(&low, 31, 0));
    assert!(rt; heap.load(&mut low, 30, 31, 0, &mut steps).is_ok());
    assert!(rt; heap.is_null(&low, 30));
    assert!(rt; heap.is_null(&high, 31));
    Ok(())
}

#[test]
fn register_31(rt: HostRuntime) -> Result<(), Fail> {
    last_register::<Brand>(&rt, Blank::new(1))
}
