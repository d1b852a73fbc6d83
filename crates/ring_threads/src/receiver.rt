//! The slow loop.
ghost use Rattle.std.specs.Prelude.{◌≡◌, ◌<◌};
ghost use Rattle.hk_table.specs.Passes.{IsPassOf};

use crate::board::{BOARD, HELD, MESSAGES, NOTHING, place_of};
use crate::shared::{Shared, Stopped, wait_for};
use hk_table::{Heap, Pass, Steps};
use std::sync::atomic::Ordering;
use std::sync::ledger::{Blank, Ledger};

/// What was received: how many messages, how many of them out of turn, and the sum of their numbers.
#[derive(Clone, Copy, Debug, PartialEq, Eq, Default)]
pub struct Received {
    pub messages: u64,
    pub out_of_turn: u64,
    pub sum: u64,
}

/// Takes the message out of a place of the ring, and lets go of it.
fn receive<L: Ledger>(
    heap: &Heap,
    pass: &mut Pass,
    place: u8,
    steps: &mut Steps<L>,
) -> Result<u64, Stopped>
    requires pass { IsPassOf heap.now pass.old }
    requires registers { heap.now.geometry.registers ≡ 8 }
    ensures { IsPassOf heap.now pass.new }
{
    heap.load(pass, HELD, BOARD, place, steps)?;
    let number = heap.get(pass, HELD, 0, steps)?;
    heap.store(pass, BOARD, place, NOTHING, steps)?;
    heap.clear(pass, HELD, steps)?;
    Ok(number)
}

/// Receives all messages, each once it was sent.
pub fn receive_all<L: Ledger>(
    heap: &Heap,
    mut pass: Pass,
    shared: &Shared,
    blank: Blank,
) -> Result<Received, Stopped>
    requires pass { IsPassOf heap.now pass }
    requires registers { heap.now.geometry.registers ≡ 8 }
    requires name { blank.name ≡ L.name }
    requires parts { blank.parts ≡ L.parts }
    requires some { 0 < L.parts }
{
    let mut steps = Steps::<L>::new(blank);
    let mut received = Received::default();
    for count in 0..MESSAGES {
        wait_for(&shared.sent, count + 1)?;
        let number = receive(heap, &mut pass, place_of(count), &mut steps)?;
        received.messages = count + 1;
        received.sum = received.sum.wrapping_add(number);
        if number != 7 * count {
            received.out_of_turn = received.out_of_turn.wrapping_add(1);
        }
        shared.received.store(count + 1, Ordering::SeqCst);
    }
    Ok(received)
}
