//! A thousand cycles beside four passes on threads of their own, on a heap in which each new object needs a flip.
//!
//! An object has as many words as a space for allocation. So between two flips one object is made at most, and each pass that
//! found no room waits for the flip that brings it.
//!
//! The passes go in rounds, and in a round each works at a cell of the board of its own; in the next round that is the cell
//! of its neighbour. So each finds what another pass left, and in a round the calls of two passes change nothing that the
//! other one sees. Whatever the order in which they came, replaying a round seat by seat therefore gives each call the reply
//! that it has in the closing history.
ghost use Rattle.std.specs.Prelude.{◌≡◌, ◌<◌};
ghost use Rattle.hk_table.specs.Passes.{IsPassOf, IsKeeperOf};

use super::gate::comes_to;
use super::plain::{Entry, Replay, TASKS, ask};
use super::{close_all, last_pass, open};
use crate::{Work, collect};
use hk_core::Line;
use hk_table::{Heap, HeapError, Keeper, Pass, Steps};
use hk_words::{Call, Geometry, Reply, Shape};
use std::alloc::AllocError;
use std::marker::Brand;
use std::process::Abort;
use std::sync::atomic::{AtomicU64, Ordering};
use std::sync::ledger::{Blank, Ledger};
use std::test::Fail;
use std::thread;
use std::thread::Threads;

/// The rounds. Each makes four objects, so there are 1,004 of them.
const ROUNDS: u64 = 251;

/// The flips at least: each object but the first comes after one of its own.
const FLIPS: u32 = 1003;

/// The calls that a pass notes in a round.
const CALLS: usize = 18;

/// So many turns are waited for room, or collected, at most.
const TURNS: u32 = 100_000_000;

/// What the threads tell one another.
#[derive(Drop)]
struct Shared {
    /// The rounds of all passes that are done.
    rounds: AtomicU64,
    /// The passes that found no room and wait.
    waiting: AtomicU64,
    /// The passes that have done all their rounds.
    ended: AtomicU64,
}

/// A pass with its calls as they were answered, None where there was no memory for them.
#[derive(Drop)]
struct Worked {
    pass: Pass,
    entries: Option<Vec<Entry>>,
}

/// Does a call and notes it.
fn note<L: Ledger>(
    rt: &impl Abort,
    heap: &Heap,
    pass: &mut Pass,
    call: Call,
    entries: &mut Vec<Entry>,
    steps: &mut Steps<L>,
) -> Result<Reply, AllocError>
    requires { IsPassOf heap.now pass.old }
    ensures { IsPassOf heap.now pass.new }
{
    let reply = ask(rt, heap, pass, call, steps);
    entries.push(Entry { call, reply })?;
    Ok(reply)
}

/// Whether there was no room. What was found used are whole objects then, of which each pass had one at most.
fn found_no_room(rt: &impl Abort, made: Result<(), HeapError>) -> bool {
    match made {
        Ok(()) => false,
        Err(
            HeapError::Full {
                words: 16 | 32 | 48 | 64,
            },
        ) => true,
        Err(error) => panic!(rt; "{error:?}"),
    }
}

/// Asks again until there is room.
fn wait_for_room<L: Ledger>(
    rt: &impl Abort,
    heap: &Heap,
    pass: &mut Pass,
    shape: Shape,
    steps: &mut Steps<L>,
)
    requires pass { IsPassOf heap.now pass.old }
    requires registers { 1 < heap.now.geometry.registers }
    ensures { IsPassOf heap.now pass.new }
{
    for _ in 0..TURNS {
        if !found_no_room(rt, heap.make(pass, 1, shape, steps)) {
            return;
        }
        thread::yield_now();
    }
    panic!(rt; "no room")
}

/// Makes an object in register 1, and notes that.
fn make<L: Ledger>(
    rt: &impl Abort,
    heap: &Heap,
    pass: &mut Pass,
    shared: &Shared,
    entries: &mut Vec<Entry>,
    steps: &mut Steps<L>,
) -> Result<(), AllocError>
    requires pass { IsPassOf heap.now pass.old }
    requires registers { 1 < heap.now.geometry.registers }
    ensures { IsPassOf heap.now pass.new }
{
    let Some(shape) = Shape::new(1, 14) else {
        panic!(rt; "no shape")
    };
    if heap.make(pass, 1, shape, steps).is_err() {
        shared.waiting.fetch_add(1, Ordering::SeqCst);
        wait_for_room(rt, heap, pass, shape, steps);
        shared.waiting.fetch_sub(1, Ordering::SeqCst);
    }
    let call = Call::New { dest: 1, shape };
    let reply = Reply::Unit;
    entries.push(Entry { call, reply })?;
    Ok(())
}

/// A round at a cell of the board. What is there is the object of the round before, and that one refers to the object before
/// it. The pass puts a new object in front, which counts one more than the one that was there, and cuts the last one off. It
/// ends with all its registers null, so at a cell there are three objects at most.
fn round<L: Ledger>(
    rt: &impl Abort,
    heap: &Heap,
    pass: &mut Pass,
    cell: u8,
    stamp: u64,
    entries: &mut Vec<Entry>,
    steps: &mut Steps<L>,
) -> Result<(), AllocError>
    requires { IsPassOf heap.now pass.old }
    ensures { IsPassOf heap.now pass.new }
{
    let load = Call::Load {
        dest: 2,
        reg: 0,
        field: cell,
    };
    note(rt, heap, pass, load, entries, steps)?;
    note(rt, heap, pass, Call::IsNull { reg: 2 }, entries, steps)?;
    let count = match note(
        rt,
        heap,
        pass,
        Call::Get { reg: 2, field: 0 },
        entries,
        steps,
    )? {
        Reply::Num(number) => number.wrapping_add(1),
        _ => 1,
    };
    let calls = [
        Call::Put {
            reg: 1,
            field: 0,
            value: count,
        },
        Call::Put {
            reg: 1,
            field: 13,
            value: stamp,
        },
        Call::Store {
            reg: 1,
            field: 0,
            from: 2,
        },
        Call::Store {
            reg: 0,
            field: cell,
            from: 1,
        },
        Call::Load {
            dest: 3,
            reg: 2,
            field: 0,
        },
        Call::Get { reg: 3, field: 13 },
        Call::Store {
            reg: 2,
            field: 0,
            from: 7,
        },
        Call::Get { reg: 2, field: 13 },
        Call::Move { dest: 4, from: 2 },
        Call::Same { a: 4, b: 2 },
        Call::Clear { dest: 1 },
        Call::Clear { dest: 2 },
        Call::Clear { dest: 3 },
        Call::Clear { dest: 4 },
    ];
    for call in calls {
        note(rt, heap, pass, call, entries, steps)?;
    }
    Ok(())
}

/// All rounds of a pass. It begins each once all passes have done the one before.
fn rounds<L: Ledger>(
    rt: &impl Abort,
    heap: &Heap,
    pass: &mut Pass,
    shared: &Shared,
    entries: &mut Vec<Entry>,
    steps: &mut Steps<L>,
) -> Result<(), AllocError>
    requires pass { IsPassOf heap.now pass.old }
    requires registers { 1 < heap.now.geometry.registers }
    ensures { IsPassOf heap.now pass.new }
{
    for number in 0..ROUNDS {
        let seat = u64::from(pass.seat());
        let cell = ((number + seat) % 4) as u8;
        make(rt, heap, pass, shared, entries, steps)?;
        round(rt, heap, pass, cell, 4 * number + seat, entries, steps)?;
        shared.rounds.fetch_add(1, Ordering::SeqCst);
        assert!(rt; comes_to(&shared.rounds, 4 * (number + 1)));
    }
    Ok(())
}

/// What a pass does on its thread.
fn work_counted<L: Ledger>(
    rt: &(impl Abort + AllocGlobal),
    heap: &Heap,
    mut pass: Pass,
    shared: &Shared,
    blank: Blank,
) -> Worked
    requires pass { IsPassOf heap.now pass }
    requires registers { 1 < heap.now.geometry.registers }
    requires name { blank.name ≡ L.name }
    requires parts { blank.parts ≡ L.parts }
    requires some { 0 < L.parts }
    ensures { IsPassOf heap.now result.pass }
{
    let mut steps = Steps::<L>::new(blank);
    let mut entries = Vec::new(rt.alloc());
    let done = rounds(rt, heap, &mut pass, shared, &mut entries, &mut steps);
    shared.ended.fetch_add(1, Ordering::SeqCst);
    let entries = match done {
        Ok(()) => Some(entries),
        Err(_) => None,
    };
    Worked { pass, entries }
}

/// The same, with a count of steps of its own.
fn work(rt: &(impl Abort + AllocGlobal), heap: &Heap, pass: Pass, shared: &Shared) -> Worked
    requires pass { IsPassOf heap.now pass }
    requires registers { 1 < heap.now.geometry.registers }
    ensures { IsPassOf heap.now result.pass }
{
    work_counted::<Brand>(rt, heap, pass, shared, Blank::new(1))
}

/// Two passes, each on a thread of its own.
fn work_two<R: Abort + AllocGlobal + Threads + Sync>(
    rt: &R,
    heap: &Heap,
    first: Pass,
    second: Pass,
    shared: &Shared,
) -> (Worked, Worked)
    requires first { IsPassOf heap.now first }
    requires second { IsPassOf heap.now second }
    requires registers { 1 < heap.now.geometry.registers }
    ensures first { IsPassOf heap.now result.0.pass }
    ensures second { IsPassOf heap.now result.1.pass }
{
    thread::join(
        rt,
        || -> Worked
            requires pass { IsPassOf heap.now first }
            requires registers { 1 < heap.now.geometry.registers }
            ensures { IsPassOf heap.entry.now result.pass }
        { work(rt, heap, first, shared) },
        || -> Worked
            requires pass { IsPassOf heap.now second }
            requires registers { 1 < heap.now.geometry.registers }
            ensures { IsPassOf heap.entry.now result.pass }
        { work(rt, heap, second, shared) },
    )
}

/// Collects until all passes have ended: from each flip to the next where a pass waits for room, and else up to the next
/// flip. Answers how many flips there were.
fn collect_beside<L: Ledger>(
    rt: &impl Abort,
    heap: &Heap,
    keeper: &mut Keeper,
    shared: &Shared,
    steps: &mut Steps<L>,
) -> u32
    requires { IsKeeperOf heap.now keeper.old }
    ensures { IsKeeperOf heap.now keeper.new }
{
    let mut flips: u32 = 0;
    for _ in 0..TURNS {
        if shared.ended.load(Ordering::SeqCst) >= u64::from(TASKS) {
            return flips;
        }
        if keeper.spot.line == Line::Rest && shared.waiting.load(Ordering::SeqCst) == 0 {
            thread::yield_now();
            continue;
        }
        match collect(heap, keeper, 64, steps) {
            Work::Flipped => flips = flips.wrapping_add(1),
            Work::LiveOver(words) => panic!(rt; "{words} words live"),
            Work::Worn => panic!(rt; "no cycle is left"),
            Work::Useful
            | Work::Lost(_)
            | Work::BusyFrame(_)
            | Work::BusyObject(_)
            | Work::Unlinked(_)
            | Work::Grey(_) => {}
        }
    }
    panic!(rt; "the passes don't end")
}

/// The same with a keeper and a count of steps of its own.
fn collect_counted<L: Ledger>(
    rt: &impl Abort,
    heap: &Heap,
    mut keeper: Keeper,
    shared: &Shared,
    blank: Blank,
) -> (u32, Keeper)
    requires keeper { IsKeeperOf heap.now keeper }
    requires name { blank.name ≡ L.name }
    requires parts { blank.parts ≡ L.parts }
    requires some { 0 < L.parts }
    ensures { IsKeeperOf heap.now result.1 }
{
    let mut steps = Steps::<L>::new(blank);
    let flips = collect_beside(rt, heap, &mut keeper, shared, &mut steps);
    (flips, keeper)
}

fn collect_alone(rt: &impl Abort, heap: &Heap, keeper: Keeper, shared: &Shared) -> (u32, Keeper)
    requires { IsKeeperOf heap.now keeper }
    ensures { IsKeeperOf heap.now result.1 }
{
    collect_counted::<Brand>(rt, heap, keeper, shared, Blank::new(1))
}

/// Four passes, each on a thread of its own.
fn work_four<R: Abort + AllocGlobal + Threads + Sync>(
    rt: &R,
    heap: &Heap,
    first: Pass,
    second: Pass,
    third: Pass,
    fourth: Pass,
    shared: &Shared,
) -> ((Worked, Worked), (Worked, Worked))
    requires first { IsPassOf heap.now first }
    requires second { IsPassOf heap.now second }
    requires third { IsPassOf heap.now third }
    requires fourth { IsPassOf heap.now fourth }
    requires registers { 1 < heap.now.geometry.registers }
    ensures first { IsPassOf heap.now result.0.0.pass }
    ensures second { IsPassOf heap.now result.0.1.pass }
    ensures third { IsPassOf heap.now result.1.0.pass }
    ensures fourth { IsPassOf heap.now result.1.1.pass }
{
    thread::join(
        rt,
        || -> (Worked, Worked)
            requires first { IsPassOf heap.now first }
            requires second { IsPassOf heap.now second }
            requires registers { 1 < heap.now.geometry.registers }
            ensures first { IsPassOf heap.entry.now result.0.pass }
            ensures second { IsPassOf heap.entry.now result.1.pass }
        { work_two(rt, heap, first, second, shared) },
        || -> (Worked, Worked)
            requires third { IsPassOf heap.now third }
            requires fourth { IsPassOf heap.now fourth }
            requires registers { 1 < heap.now.geometry.registers }
            ensures third { IsPassOf heap.entry.now result.0.pass }
            ensures fourth { IsPassOf heap.entry.now result.1.pass }
        { work_two(rt, heap, third, fourth, shared) },
    )
}

/// Four passes and the keeper, each on a thread of its own.
fn work_and_collect<R: Abort + AllocGlobal + Threads + Sync>(
    rt: &R,
    heap: &Heap,
    first: Pass,
    second: Pass,
    third: Pass,
    fourth: Pass,
    keeper: Keeper,
) -> (((Worked, Worked), (Worked, Worked)), (u32, Keeper))
    requires first { IsPassOf heap.now first }
    requires second { IsPassOf heap.now second }
    requires third { IsPassOf heap.now third }
    requires fourth { IsPassOf heap.now fourth }
    requires keeper { IsKeeperOf heap.now keeper }
    requires registers { 1 < heap.now.geometry.registers }
    ensures first { IsPassOf heap.now result.0.0.0.pass }
    ensures second { IsPassOf heap.now result.0.0.1.pass }
    ensures third { IsPassOf heap.now result.0.1.0.pass }
    ensures fourth { IsPassOf heap.now result.0.1.1.pass }
    ensures keeper { IsKeeperOf heap.now result.1.1 }
{
    let shared = Shared {
        rounds: AtomicU64::new(0),
        waiting: AtomicU64::new(0),
        ended: AtomicU64::new(0),
    };
    let told = &shared;
    thread::join(
        rt,
        || -> ((Worked, Worked), (Worked, Worked))
            requires first { IsPassOf heap.now first }
            requires second { IsPassOf heap.now second }
            requires third { IsPassOf heap.now third }
            requires fourth { IsPassOf heap.now fourth }
            requires registers { 1 < heap.now.geometry.registers }
            ensures first { IsPassOf heap.entry.now result.0.0.pass }
            ensures second { IsPassOf heap.entry.now result.0.1.pass }
            ensures third { IsPassOf heap.entry.now result.1.0.pass }
            ensures fourth { IsPassOf heap.entry.now result.1.1.pass }
        { work_four(rt, heap, first, second, third, fourth, told) },
        || -> (u32, Keeper)
            requires { IsKeeperOf heap.now keeper }
            ensures { IsKeeperOf heap.entry.now result.1 }
        { collect_alone(rt, heap, keeper, told) },
    )
}

/// Reads what the last round left at a cell: the count of all rounds, and the stamp of the pass that was there. In round 250
/// that is the pass whose seat has the remainder of the cell less 250, divided by 4.
fn read_last<L: Ledger>(
    rt: &impl Abort,
    heap: &Heap,
    pass: &mut Pass,
    entries: &mut Vec<Entry>,
    steps: &mut Steps<L>,
) -> Result<(), AllocError>
    requires { IsPassOf heap.now pass.old }
    ensures { IsPassOf heap.now pass.new }
{
    for (cell, stamp) in [(0, 1002), (1, 1003), (2, 1000), (3, 1001)] {
        let load = Call::Load {
            dest: 2,
            reg: 0,
            field: cell,
        };
        note(rt, heap, pass, load, entries, steps)?;
        let count = note(
            rt,
            heap,
            pass,
            Call::Get { reg: 2, field: 0 },
            entries,
            steps,
        )?;
        let last = note(
            rt,
            heap,
            pass,
            Call::Get { reg: 2, field: 13 },
            entries,
            steps,
        )?;
        assert_eq!(rt; [count, last], [Reply::Num(251), Reply::Num(stamp)]);
    }
    Ok(())
}

/// Replays the calls round by round, in each of them seat by seat, and after all rounds the last ones of seat 0.
fn replay_all(
    rt: &(impl Abort + AllocGlobal),
    board: Shape,
    worked: &[Vec<Entry>],
    last: &[Entry],
) -> Result<(), Fail> {
    let mut plain = Replay::open(rt.alloc(), board)?;
    for number in 0..ROUNDS {
        let start = number as usize * CALLS;
        for seat in 0..TASKS {
            let entries = worked.get(seat as usize).ok_or("no seat")?;
            for place in start..start + CALLS {
                let entry = entries.get(place).ok_or("no entry")?;
                plain.replay(rt, seat, entry)?;
            }
        }
    }
    for entry in last {
        plain.replay(rt, 0, entry)?;
    }
    Ok(())
}

/// The whole run. The board has five words, and each of its cells at most three objects.
fn run<R: Abort + AllocGlobal + Threads + Sync, L: Ledger>(rt: &R, blank: Blank) -> Result<(), Fail>
    requires name { blank.name ≡ L.name }
    requires parts { blank.parts ≡ L.parts }
    requires some { 0 < L.parts }
{
    let g = Geometry::new(198, 16, 0, 2, 2, 4, 0)?;
    let (heap, mut passes, keeper) = open(rt.alloc(), g)?;
    let fourth = last_pass(rt, &heap, &mut passes);
    let third = last_pass(rt, &heap, &mut passes);
    let second = last_pass(rt, &heap, &mut passes);
    let first = last_pass(rt, &heap, &mut passes);
    let (((first, second), (third, fourth)), (flips, keeper)) = work_and_collect(
        rt, &heap, first, second, third, fourth, keeper,
    );
    assert!(rt; flips >= FLIPS, "{flips} flips");
    let mut steps = Steps::<L>::new(blank);
    let mut pass = first.pass;
    let mut last = Vec::new(rt.alloc());
    read_last(rt, &heap, &mut pass, &mut last, &mut steps)?;
    let passes = vec![in rt.alloc(); pass, second.pass, third.pass, fourth.pass]?;
    let closed = close_all(rt, heap, passes, keeper);
    assert!(rt; closed.reserved() <= 198);
    let worked = vec![in rt.alloc();
        first.entries.ok_or("no memory")?,
        second.entries.ok_or("no memory")?,
        third.entries.ok_or("no memory")?,
        fourth.entries.ok_or("no memory")?,
    ]?;
    replay_all(rt, g.board(), worked.as_slice(), last.as_slice())
}

#[test]
fn a_thousand_cycles(rt: HostRuntime) -> Result<(), Fail> {
    run::<HostRuntime, Brand>(&rt, Blank::new(1))
}
