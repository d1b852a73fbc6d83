//! What the keeper answers while a pass, on a thread of its own, is held by a gate in the middle of a call. The heap has one
//! high task, and its board one reference field, so two of the eight words for evacuation are live.
ghost use Rattle.std.specs.Prelude.{◌≡◌, ◌<◌, ◌≤◌, false, true};
ghost use Rattle.hk_words.specs.Geometry.{tasks};
ghost use Rattle.hk_table.specs.Knows.{pass};
ghost use Rattle.hk_table.specs.Rule.{fresh};
ghost use Rattle.hk_table.specs.Deeds.{Stands, is_rest, the_pass};
ghost use Rattle.hk_table.specs.Passes.{IsKeeperOf};

use super::gate::Gate;
use super::stepping::{begin, open_stepped, step};
use super::{answers, useful};
use crate::Work;
use hk_core::{Flight, Line};
use hk_table::{Heap, Keeper, Seat, Steps};
use hk_words::{Call, Geometry};
use std::marker::Brand;
use std::process::Abort;
use std::sync::ledger::{Blank, Ledger};
use std::test::Fail;
use std::thread;
use std::thread::Threads;

/// The first step of a pass's first call.
fn first_step(rt: &impl Abort, heap: &Heap, seat: &mut Seat, call: Call) -> Flight
    requires table { seat.old.table_id ≡ heap.now.table.shared.table_id }
    requires fresh { seat.old.me.0.knows ≡ pass heap.now.geometry (fresh heap.now.geometry 0) }
    requires some { 0 < tasks heap.now.geometry }
    ensures table { seat.new.table_id ≡ seat.old.table_id }
    ensures pass { seat.new.me.0.knows ≡ pass heap.now.geometry (the_pass seat.new.me.0.knows) }
    ensures stands { Stands heap.now.geometry (the_pass seat.new.me.0.knows) }
    ensures flight { result ≡ (the_pass seat.new.me.0.knows).flight }
    ensures used { is_rest heap.now.geometry result ≡ false }
{
    let g = heap.geometry();
    let mut flight = begin(rt, &g, call);
    step(rt, heap, seat, true, &mut flight);
    flight
}

/// A later step of the call.
fn next_step(rt: &impl Abort, heap: &Heap, seat: &mut Seat, flight: &mut Flight)
    requires table { seat.old.table_id ≡ heap.now.table.shared.table_id }
    requires pass { seat.old.me.0.knows ≡ pass heap.now.geometry (the_pass seat.old.me.0.knows) }
    requires stands { Stands heap.now.geometry (the_pass seat.old.me.0.knows) }
    requires flight { flight.old ≡ (the_pass seat.old.me.0.knows).flight }
    requires flying { 1 ≤ flight.old.place }
    requires used { is_rest heap.now.geometry flight.old ≡ false }
    ensures table { seat.new.table_id ≡ seat.old.table_id }
    ensures pass { seat.new.me.0.knows ≡ pass heap.now.geometry (the_pass seat.new.me.0.knows) }
    ensures stands { Stands heap.now.geometry (the_pass seat.new.me.0.knows) }
    ensures flight { flight.new ≡ (the_pass seat.new.me.0.knows).flight }
    ensures used { is_rest heap.now.geometry flight.new ≡ false }
{
    step(rt, heap, seat, false, flight);
}

/// Does a pass's first call, each step of it once the gate lets it.
fn call_held(rt: &impl Abort, heap: &Heap, mut seat: Seat, call: Call, gate: &Gate)
    requires table { seat.table_id ≡ heap.now.table.shared.table_id }
    requires fresh { seat.me.0.knows ≡ pass heap.now.geometry (fresh heap.now.geometry 0) }
    requires some { 0 < tasks heap.now.geometry }
{
    assert!(rt; gate.opens(1));
    let mut flight = first_step(rt, heap, &mut seat, call);
    gate.did(1);
    for number in 2..=10_u64 {
        if flight.place == 0 {
            return;
        }
        assert!(rt; gate.opens(number));
        next_step(rt, heap, &mut seat, &mut flight);
        gate.did(number);
    }
}

/// Ten times the collector does so many useful events and then answers this.
fn waits<L: Ledger>(
    rt: &impl Abort,
    heap: &Heap,
    keeper: &mut Keeper,
    events: u32,
    work: Work,
    steps: &mut Steps<L>,
)
    requires keeper { IsKeeperOf heap.now keeper.old }
    ensures { IsKeeperOf heap.now keeper.new }
{
    for _ in 0..10_u32 {
        for _ in 0..events {
            useful(rt, heap, keeper, 1, steps);
        }
        answers(rt, heap, keeper, 1, work, steps);
    }
}

/// A copy of the board's register into register 1 is held inside its frame. The collector waits there with any budget. Once
/// the copy is done it goes past the frame in 14 events: the frame word, the board's register in four, the copy in two since
/// the board is claimed already, six null registers and the exchange.
fn beside_a_copy<L: Ledger>(
    rt: &impl Abort,
    heap: &Heap,
    mut keeper: Keeper,
    gate: &Gate,
    mut steps: Steps<L>,
)
    requires { IsKeeperOf heap.now keeper }
{
    assert!(rt; gate.let_go(1));
    answers(rt, heap, &mut keeper, 1000, Work::Flipped, &mut steps);
    waits(rt, heap, &mut keeper, 0, Work::BusyFrame(0), &mut steps);
    assert!(rt; gate.let_go(2));
    answers(rt, heap, &mut keeper, 1000, Work::BusyFrame(0), &mut steps);
    assert!(rt; gate.let_go(3));
    useful(rt, heap, &mut keeper, 14, &mut steps);
    assert_eq!(rt; keeper.spot.line, Line::Scan);
    answers(rt, heap, &mut keeper, 1000, Work::Flipped, &mut steps);
}

/// A store of the board into its own field is held after each of its places, and is in the collector's way at all of them but
/// the first two. It claims the board, so the collector neither claims it from the frame nor reserves a place: the frame
/// word, the board's register in two, seven null registers, the exchange, the reserved words and the mark of the board, 13
/// events; then the board's header still shows the old space. After Grey come the reserved words and that mark again. Once
/// the store has reserved two words, the first of the current space, the collector finds no link word there. Once the store
/// has written that, the store is inside the board, also after it has written the field. Once it has left, the collector
/// moves the board in five events: the header, the cell, its claim, the copy and the exchange.
fn beside_a_store<L: Ledger>(
    rt: &impl Abort,
    heap: &Heap,
    mut keeper: Keeper,
    gate: &Gate,
    mut steps: Steps<L>,
)
    requires { IsKeeperOf heap.now keeper }
{
    assert!(rt; gate.let_go(1));
    answers(rt, heap, &mut keeper, 1000, Work::Flipped, &mut steps);
    assert!(rt; gate.let_go(3));
    useful(rt, heap, &mut keeper, 13, &mut steps);
    answers(rt, heap, &mut keeper, 1000, Work::Grey(0), &mut steps);
    waits(rt, heap, &mut keeper, 2, Work::Grey(0), &mut steps);
    assert!(rt; gate.let_go(4));
    waits(rt, heap, &mut keeper, 1, Work::Unlinked(1), &mut steps);
    assert!(rt; gate.let_go(5));
    useful(rt, heap, &mut keeper, 2, &mut steps);
    waits(rt, heap, &mut keeper, 0, Work::BusyObject(0), &mut steps);
    assert!(rt; gate.let_go(6));
    answers(rt, heap, &mut keeper, 1000, Work::BusyObject(0), &mut steps);
    assert!(rt; gate.let_go(7));
    useful(rt, heap, &mut keeper, 5, &mut steps);
    assert_eq!(rt; keeper.spot.scan, 2);
    answers(rt, heap, &mut keeper, 1000, Work::Flipped, &mut steps);
}

fn copy_held<R: Abort + Threads + Sync + AllocGlobal, L: Ledger>(
    rt: &R,
    blank: Blank,
) -> Result<(), Fail>
    requires name { blank.name ≡ L.name }
    requires parts { blank.parts ≡ L.parts }
    requires some { 0 < L.parts }
{
    let g = Geometry::new(8, 16, 0, 1, 0, 1, 0)?;
    let (heap, seat, keeper) = open_stepped(rt.alloc(), g)?;
    let gate = Gate::new();
    let steps = Steps::<L>::new(blank);
    let call = Call::Move { dest: 1, from: 0 };
    thread::join(
        rt,
        || -> ()
            requires table { seat.table_id ≡ heap.table.shared.table_id }
            requires fresh { seat.me.0.knows ≡ pass heap.geometry (fresh heap.geometry 0) }
            requires some { 0 < tasks heap.geometry }
        { call_held(rt, &heap, seat, call, &gate) },
        || -> ()
            requires { IsKeeperOf heap keeper }
        { beside_a_copy(rt, &heap, keeper, &gate, steps) },
    );
    Ok(())
}

fn store_held<R: Abort + Threads + Sync + AllocGlobal, L: Ledger>(
    rt: &R,
    blank: Blank,
) -> Result<(), Fail>
    requires name { blank.name ≡ L.name }
    requires parts { blank.parts ≡ L.parts }
    requires some { 0 < L.parts }
{
    let g = Geometry::new(8, 16, 0, 1, 0, 1, 0)?;
    let (heap, seat, keeper) = open_stepped(rt.alloc(), g)?;
    let gate = Gate::new();
    let steps = Steps::<L>::new(blank);
    let call = Call::Store {
        reg: 0,
        field: 0,
        from: 0,
    };
    thread::join(
        rt,
        || -> ()
            requires table { seat.table_id ≡ heap.table.shared.table_id }
            requires fresh { seat.me.0.knows ≡ pass heap.geometry (fresh heap.geometry 0) }
            requires some { 0 < tasks heap.geometry }
        { call_held(rt, &heap, seat, call, &gate) },
        || -> ()
            requires { IsKeeperOf heap keeper }
        { beside_a_store(rt, &heap, keeper, &gate, steps) },
    );
    Ok(())
}

#[test]
fn busy_frame(rt: HostRuntime) -> Result<(), Fail> {
    copy_held::<HostRuntime, Brand>(&rt, Blank::new(1))
}

#[test]
fn grey_unlinked_and_busy_object(rt: HostRuntime) -> Result<(), Fail> {
    store_held::<HostRuntime, Brand>(&rt, Blank::new(1))
}
