//! ring_threads: a fast loop, a slow one and the collector, each on a thread of its own, and a ring of messages between the
//! loops on the heap that they share. It prints what the slow loop received, which is the same in whatever order they go.
#![tactic(auto)]

ghost use Rattle.std.specs.Prelude.{◌≡◌, All, IfOk, IfSome};
ghost use Rattle.hk_table.specs.Passes.{IsPassOf, IsKeeperOf};

mod board;
mod collector;
mod receiver;
mod sender;
mod shared;
mod threads;

use anyhow::{Result, anyhow};
use hk_table::{Heap, Keeper, Pass};
use hk_words::{Geometry, Memory};
use receiver::Received;
use std::alloc::Global;
use std::thread::Threads;
use threads::run_all;

/// The heap of a high and a low task, whose board has the four places of the ring.
fn geometry() -> Option<Geometry>
    ensures { IfSome result (λ g. g.registers ≡ 8) }
{
    Geometry::new(16, 64, 16, 1, 1, 4, 0).ok()
}

/// The heap at the start, with its passes and its keeper.
fn open(alloc: Global, g: Geometry) -> Result<(Heap, Vec<Pass>, Keeper), Memory>
    ensures heap { IfOk result (λ r. r.0.geometry ≡ g) }
    ensures passes { IfOk result (λ r. All (IsPassOf r.0) r.1.items) }
    ensures keeper { IfOk result (λ r. IsKeeperOf r.0 r.2) }
{
    Heap::open(alloc, g)
}

/// Opens a heap, and gives the two passes and the keeper to the three threads.
fn exchange<R: Threads + Sync>(rt: &R, alloc: Global) -> Result<Received> {
    let Some(g) = geometry() else {
        return Err(anyhow!("no such heap"));
    };
    let Ok((heap, mut passes, keeper)) = open(alloc, g) else {
        return Err(anyhow!("no memory for the heap"));
    };
    let Some(receiver) = passes.pop() else {
        return Err(anyhow!("no pass of the slow loop"));
    };
    let Some(sender) = passes.pop() else {
        return Err(anyhow!("no pass of the fast loop"));
    };
    match run_all(rt, &heap, sender, receiver, keeper) {
        Ok(received) => Ok(received),
        Err(stopped) => Err(anyhow!("stopped: {stopped:?}")),
    }
}

fn main(rt: HostRuntime) -> Result<()> {
    let received = exchange(&rt, rt.alloc())?;
    println!(rt;
        "received {} out of turn {}",
        received.messages, received.out_of_turn
    )?;
    println!(rt; "sum {}", received.sum)?;
    Ok(())
}
