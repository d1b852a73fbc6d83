//! ring: a fast loop and a slow one, and a ring of messages between them on the heap of one owner, who gives each of the two
//! and the collector its turn. It prints what the slow loop took out, how many messages found the ring full, and what becomes
//! of one that finds no room.
#![tactic(auto)]

mod calls;
mod loops;

use anyhow::{Result, anyhow};
use loops::{PLACES, Ring, Sent};

/// The rounds of the fast loop.
const ROUNDS: u64 = 60;

/// The rounds of the fast loop for one of the slow loop.
const SLOWER: u64 = 5;

/// The slow loop's turns, until no message waits.
fn take_all(rt: &impl Print, ring: &mut Ring) -> Result<()> {
    print!(rt; "received")?;
    for _place in 0..PLACES {
        if let Some(number) = ring.receive() {
            print!(rt; " {number}")?;
        }
    }
    println!(rt; "")?;
    Ok(())
}

fn main(rt: HostRuntime) -> Result<()> {
    let Some(mut ring) = Ring::open(rt.alloc()) else {
        return Err(anyhow!("no memory for the heap"));
    };
    let mut dropped: u64 = 0;
    for round in 0..ROUNDS {
        match ring.send(7 * round) {
            Some(Sent::Placed) => {}
            Some(Sent::RingFull) => dropped = dropped.wrapping_add(1),
            Some(Sent::NoRoom { words }) => return Err(anyhow!("no room at {words} words")),
            None => return Err(anyhow!("a call was not begun")),
        }
        if round % SLOWER == SLOWER - 1 {
            take_all(&rt, &mut ring)?;
        }
    }
    println!(rt; "dropped {dropped}")?;
    if let Some(words) = ring.flood() {
        println!(rt; "no room at {words} words")?;
    }
    if ring.recover() && ring.send(7 * ROUNDS) == Some(Sent::Placed) {
        take_all(&rt, &mut ring)?;
    }
    Ok(())
}
