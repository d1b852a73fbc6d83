//! The heap that threads share, opened and used.
ghost use Rattle.std.specs.Prelude.{◌≡◌, ◌<◌, All, IfOk};
ghost use Rattle.hk_table.specs.Passes.{IsPassOf};

use crate::opening::{BOARD, NUMBER, Unopened, geometry, number_line};
use hk_table::{Heap, HeapError, Pass, Steps};
use hk_words::Memory;
use std::alloc::Global;
use std::marker::Brand;
use std::sync::ledger::{Blank, Ledger};

/// The heap at the start, with its passes. The collector's keeper isn't needed.
fn opened(alloc: Global) -> Result<(Heap, Vec<Pass>), Memory>
    ensures registers { IfOk result (λ r. r.0.geometry.registers ≡ 8) }
    ensures passes { IfOk result (λ r. All (IsPassOf r.0) r.1.items) }
{
    let (heap, passes, _keeper) = Heap::open(alloc, geometry())?;
    Ok((heap, passes))
}

/// The number that a new object keeps.
fn kept<L: Ledger>(heap: &Heap, pass: Pass, steps: &mut Steps<L>) -> Result<u64, HeapError>
    requires pass { IsPassOf heap.now pass }
    requires registers { heap.now.geometry.registers ≡ 8 }
{
    let mut pass = pass;
    heap.make(&mut pass, 1, BOARD, steps)?;
    heap.put(&mut pass, 1, 0, NUMBER, steps)?;
    heap.get(&mut pass, 1, 0, steps)
}

/// What the last of the passes reads.
fn read_by<L: Ledger>(heap: &Heap, passes: Vec<Pass>, blank: Blank) -> Option<u64>
    requires passes { All (IsPassOf heap.now) passes.items }
    requires registers { heap.now.geometry.registers ≡ 8 }
    requires name { blank.name ≡ L.name }
    requires parts { blank.parts ≡ L.parts }
    requires some { 0 < L.parts }
{
    let mut steps = Steps::<L>::new(blank);
    let mut passes = passes;
    let pass = passes.pop()?;
    kept(heap, pass, &mut steps).ok()
}

/// The line of this heap.
pub fn line(alloc: Global) -> Result<String, Unopened> {
    let (heap, passes) = opened(alloc)?;
    let read = read_by::<Brand>(&heap, passes, Blank::new(1));
    Ok(number_line(alloc, "heap", read)?)
}
