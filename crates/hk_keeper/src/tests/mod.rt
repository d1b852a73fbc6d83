//! Rows that were worked out by hand, and runs beside passes on threads of their own.
ghost use Rattle.std.specs.Prelude.{◌≡◌, ◌≤◌, All, IfOk};
ghost use Rattle.hk_table.specs.Passes.{IsPassOf, IsKeeperOf, kept};
ghost use Rattle.hk_table.specs.Ends.{ClosedBy};

mod closing;
mod gate;
mod held;
mod live;
mod long;
mod plain;
mod room;
mod stepping;

use crate::{Work, collect};
use hk_table::{Closed, Heap, Keeper, Pass, Steps, close};
use hk_words::{Geometry, Memory};
use std::alloc::Global;
use std::process::Abort;
use std::sync::ledger::Ledger;

/// A heap with its passes, in the order of their seats, and its keeper.
fn open(alloc: Global, g: Geometry) -> Result<(Heap, Vec<Pass>, Keeper), Memory>
    ensures heap { IfOk result (λ r. r.0.geometry ≡ g) }
    ensures passes { IfOk result (λ r. All (IsPassOf r.0) r.1.items) }
    ensures keeper { IfOk result (λ r. IsKeeperOf r.0 r.2) }
{
    Heap::open(alloc, g)
}

/// Takes the pass of the last seat that is left.
fn last_pass(rt: &impl Abort, heap: &Heap, passes: &mut Vec<Pass>) -> Pass
    requires { All (IsPassOf heap.now) passes.old.items }
    ensures left { All (IsPassOf heap.now) passes.new.items }
    ensures pass { IsPassOf heap.now result }
{
    let Some(pass) = passes.pop() else {
        panic!(rt; "no pass is left")
    };
    pass
}

/// A heap with a high pass and a low one, and its keeper.
fn open_two(
    rt: &(impl Abort + AllocGlobal),
    g: Geometry,
) -> Result<(Heap, Pass, Pass, Keeper), Memory>
    ensures heap { IfOk result (λ r. r.0.geometry ≡ g) }
    ensures high { IfOk result (λ r. IsPassOf r.0 r.1) }
    ensures low { IfOk result (λ r. IsPassOf r.0 r.2) }
    ensures keeper { IfOk result (λ r. IsKeeperOf r.0 r.3) }
{
    let (heap, mut passes, keeper) = open(rt.alloc(), g)?;
    let low = last_pass(rt, &heap, &mut passes);
    let high = last_pass(rt, &heap, &mut passes);
    assert!(rt; high.high() && !low.high());
    Ok((heap, high, low, keeper))
}

/// Ends a heap with all its passes, in the order of their seats.
fn close_all(rt: &impl Abort, heap: Heap, passes: Vec<Pass>, keeper: Keeper) -> Closed
    requires passes { All (IsPassOf heap) passes.items }
    requires keeper { IsKeeperOf heap keeper }
    ensures { ClosedBy heap.geometry passes.items (kept keeper) result }
{
    let tasks = heap.geometry().tasks();
    assert!(rt; passes.len() == tasks as usize);
    for number in 0..tasks {
        assert!(rt; passes[number as usize].seat() == number);
    }
    close(heap, passes, keeper)
}

/// The collector answers this, where it may do so many events.
fn answers<L: Ledger>(
    rt: &impl Abort,
    heap: &Heap,
    keeper: &mut Keeper,
    budget: u32,
    work: Work,
    steps: &mut Steps<L>,
)
    requires keeper { IsKeeperOf heap.now keeper.old }
    requires some { 1 ≤ budget }
    ensures { IsKeeperOf heap.now keeper.new }
{
    assert_eq!(rt; collect(heap, keeper, budget, steps), work);
}

/// So many events of the collector are useful.
fn useful<L: Ledger>(
    rt: &impl Abort,
    heap: &Heap,
    keeper: &mut Keeper,
    events: u32,
    steps: &mut Steps<L>,
)
    requires keeper { IsKeeperOf heap.now keeper.old }
    requires some { 1 ≤ events }
    ensures { IsKeeperOf heap.now keeper.new }
{
    answers(rt, heap, keeper, events, Work::Useful, steps);
}

/// Collects until the next flip, which must come before anything else is in the way. Answers how many events came before it,
/// where the budget is one event.
fn until_flipped<L: Ledger>(
    rt: &impl Abort,
    heap: &Heap,
    keeper: &mut Keeper,
    budget: u32,
    steps: &mut Steps<L>,
) -> u32
    requires keeper { IsKeeperOf heap.now keeper.old }
    requires budget { 1 ≤ budget }
    ensures { IsKeeperOf heap.now keeper.new }
{
    for turn in 0..1000_u32 {
        match collect(heap, keeper, budget, steps) {
            Work::Useful => {}
            Work::Flipped => return turn,
            work => panic!(rt; "{work:?}"),
        }
    }
    panic!(rt; "no flip")
}
