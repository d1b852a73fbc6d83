//! More live words than were declared, and no more than that. The heap has one high task. The board and an object have two
//! words each, and a space has two words for evacuation.
ghost use Rattle.std.specs.Prelude.{◌≡◌, ◌<◌, IfOk};
ghost use Rattle.hk_table.specs.Passes.{IsPassOf, IsKeeperOf};

use super::{answers, last_pass, open, until_flipped};
use crate::Work;
use hk_table::{Heap, Keeper, Pass, Steps};
use hk_words::{Geometry, Shape};
use std::marker::Brand;
use std::process::Abort;
use std::sync::ledger::{Blank, Ledger};
use std::test::Fail;

/// The heap, once its pass has made the object in register 1.
fn with_object<L: Ledger>(
    rt: &(impl Abort + AllocGlobal),
    steps: &mut Steps<L>,
) -> Result<(Heap, Pass, Keeper), Fail>
    ensures registers { IfOk result (λ r. r.0.geometry.registers ≡ 8) }
    ensures pass { IfOk result (λ r. IsPassOf r.0 r.1) }
    ensures keeper { IfOk result (λ r. IsKeeperOf r.0 r.2) }
{
    let g = Geometry::new(2, 16, 16, 1, 0, 1, 0)?;
    let shape = Shape::new(1, 0).ok_or("no shape")?;
    let (heap, mut passes, keeper) = open(rt.alloc(), g)?;
    let mut pass = last_pass(rt, &heap, &mut passes);
    assert!(rt; heap.make(&mut pass, 1, shape, steps).is_ok());
    Ok((heap, pass, keeper))
}

/// The collector flips, then finds four words reserved, and stays there.
fn both_live<L: Ledger>(rt: &(impl Abort + AllocGlobal), blank: Blank) -> Result<(), Fail>
    requires name { blank.name ≡ L.name }
    requires parts { blank.parts ≡ L.parts }
    requires some { 0 < L.parts }
{
    let mut steps = Steps::<L>::new(blank);
    let (heap, _pass, mut keeper) = with_object(rt, &mut steps)?;
    answers(rt, &heap, &mut keeper, 1000, Work::Flipped, &mut steps);
    answers(rt, &heap, &mut keeper, 1000, Work::LiveOver(4), &mut steps);
    answers(rt, &heap, &mut keeper, 1, Work::LiveOver(4), &mut steps);
    Ok(())
}

/// Where the object is cut off before the flip, the cycle ends and the next one begins. No cycle of one task takes more than
/// 3 + (2 + 4 * 8) + 9 * 2 + 7 * 16 = 167 events. This one takes 98 from its flip to the next: the frame with its board,
/// 1 + 4 + 7 + 1; the scan of the board, 1 + 1 + 1 + 2 + 1; the scan that finds its end; the pass over 17 numbers, of which
/// the board and the 8 of the current list are marked for the cycle, 17 + 9; the sweep, which goes past the board and takes
/// the next 8 numbers, 1 + 4 * 8; the 18 words of the old space; and the reset.
fn cut_off<L: Ledger>(rt: &(impl Abort + AllocGlobal), blank: Blank) -> Result<(), Fail>
    requires name { blank.name ≡ L.name }
    requires parts { blank.parts ≡ L.parts }
    requires some { 0 < L.parts }
{
    let mut steps = Steps::<L>::new(blank);
    let (heap, mut pass, mut keeper) = with_object(rt, &mut steps)?;
    assert!(rt; heap.clear(&mut pass, 1, &mut steps).is_ok());
    answers(rt, &heap, &mut keeper, 1000, Work::Flipped, &mut steps);
    let events = until_flipped(rt, &heap, &mut keeper, 1, &mut steps);
    assert!(rt; events <= 167, "{events} events");
    assert_eq!(rt; events, 98);
    answers(rt, &heap, &mut keeper, 1000, Work::Flipped, &mut steps);
    Ok(())
}

#[test]
fn more_live_than_declared(rt: HostRuntime) -> Result<(), Fail> {
    both_live::<Brand>(&rt, Blank::new(1))
}

#[test]
fn an_object_that_is_cut_off_is_not_moved(rt: HostRuntime) -> Result<(), Fail> {
    cut_off::<Brand>(&rt, Blank::new(1))
}
