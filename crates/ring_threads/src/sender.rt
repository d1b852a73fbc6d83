//! The fast loop.
ghost use Rattle.std.specs.Prelude.{◌≡◌, ◌<◌};
ghost use Rattle.hk_table.specs.Passes.{IsPassOf};

use crate::board::{BOARD, HELD, MESSAGE, MESSAGES, PLACES, place_of};
use crate::shared::{Shared, Stopped, TURNS, wait_for};
use hk_table::{Heap, HeapError, Pass, Steps};
use std::sync::atomic::Ordering;
use std::sync::ledger::{Blank, Ledger};
use std::thread;

/// Makes a message in hand. Where it finds no room it asks the collector for a flip, and tries again.
fn make<L: Ledger>(
    heap: &Heap,
    pass: &mut Pass,
    shared: &Shared,
    steps: &mut Steps<L>,
) -> Result<(), Stopped>
    requires pass { IsPassOf heap.now pass.old }
    requires registers { heap.now.geometry.registers ≡ 8 }
    ensures { IsPassOf heap.now pass.new }
{
    for _ in 0..TURNS {
        match heap.make(pass, HELD, MESSAGE, steps) {
            Ok(()) => return Ok(()),
            Err(HeapError::Full { .. }) => shared.wants_room.store(true, Ordering::SeqCst),
            Err(error) => return Err(error.into()),
        }
        thread::yield_now();
    }
    Err(Stopped::Waited)
}

/// Sends a message by a place of the ring that is free.
fn send<L: Ledger>(
    heap: &Heap,
    pass: &mut Pass,
    shared: &Shared,
    place: u8,
    number: u64,
    steps: &mut Steps<L>,
) -> Result<(), Stopped>
    requires pass { IsPassOf heap.now pass.old }
    requires registers { heap.now.geometry.registers ≡ 8 }
    ensures { IsPassOf heap.now pass.new }
{
    make(heap, pass, shared, steps)?;
    heap.put(pass, HELD, 0, number, steps)?;
    heap.store(pass, BOARD, place, HELD, steps)?;
    heap.clear(pass, HELD, steps)?;
    Ok(())
}

/// Sends the multiples of 7, each once there is a free place for it.
pub fn send_all<L: Ledger>(
    heap: &Heap,
    mut pass: Pass,
    shared: &Shared,
    blank: Blank,
) -> Result<(), Stopped>
    requires pass { IsPassOf heap.now pass }
    requires registers { heap.now.geometry.registers ≡ 8 }
    requires name { blank.name ≡ L.name }
    requires parts { blank.parts ≡ L.parts }
    requires some { 0 < L.parts }
{
    let mut steps = Steps::<L>::new(blank);
    for count in 0..MESSAGES {
        wait_for(&shared.received, (count + 1).saturating_sub(PLACES))?;
        send(
            heap,
            &mut pass,
            shared,
            place_of(count),
            7 * count,
            &mut steps,
        )?;
        shared.sent.store(count + 1, Ordering::SeqCst);
    }
    Ok(())
}
