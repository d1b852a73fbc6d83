//! Rows of calls that were worked out by hand, on a heap with a high pass and a low one.
ghost use Rattle.std.specs.Prelude.{◌≡◌, ℕ, IfOk};
ghost use Rattle.hk_words.specs.Geometry.{tasks};
ghost use Rattle.hk_table.specs.Passes.{IsPassOf, IsKeeperOf};

mod full;
mod meeting;
mod refusals;
mod threads;
mod wide;

use crate::{Heap, Keeper, Pass};
use hk_words::{Geometry, Memory};
use std::alloc::Global;

/// A heap with its two passes, the high one first, and its keeper.
fn open_two(alloc: Global, g: Geometry) -> Result<(Heap, Pass, Pass, Keeper), Memory>
    requires { tasks g ≡ 2 }
    ensures heap { IfOk result (λ r. r.0.geometry ≡ g) }
    ensures high { IfOk result (λ r. IsPassOf r.0 r.1) }
    ensures low { IfOk result (λ r. IsPassOf r.0 r.2) }
    ensures numbers { IfOk result (λ r. (r.1.number ≡ 0) × (r.2.number ≡ 1)) }
    ensures keeper { IfOk result (λ r. IsKeeperOf r.0 r.3) }
{
    let (heap, mut passes, keeper) = Heap::open(alloc, g)?;
    let Some(low) = passes.pop() else {
        unreachable!()
    };
    let Some(high) = passes.pop() else {
        unreachable!()
    };
    Ok((heap, high, low, keeper))
}
