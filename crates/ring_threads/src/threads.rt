//! The two loops and the collector, each on a thread of its own.
ghost use Rattle.std.specs.Prelude.{◌≡◌, ◌<◌};
ghost use Rattle.hk_table.specs.Passes.{IsPassOf, IsKeeperOf};

use crate::collector::collect_all;
use crate::receiver::{Received, receive_all};
use crate::sender::send_all;
use crate::shared::{Shared, Stopped};
use hk_table::{Heap, Keeper, Pass};
use std::marker::Brand;
use std::sync::atomic::Ordering;
use std::sync::ledger::Blank;
use std::thread;
use std::thread::Threads;

/// The fast loop's thread.
fn run_sender(heap: &Heap, pass: Pass, shared: &Shared) -> Result<(), Stopped>
    requires pass { IsPassOf heap.now pass }
    requires registers { heap.now.geometry.registers ≡ 8 }
{
    let sent = send_all::<Brand>(heap, pass, shared, Blank::new(1));
    shared.ended.fetch_add(1, Ordering::SeqCst);
    sent
}

/// The slow loop's thread.
fn run_receiver(heap: &Heap, pass: Pass, shared: &Shared) -> Result<Received, Stopped>
    requires pass { IsPassOf heap.now pass }
    requires registers { heap.now.geometry.registers ≡ 8 }
{
    let received = receive_all::<Brand>(heap, pass, shared, Blank::new(1));
    shared.ended.fetch_add(1, Ordering::SeqCst);
    received
}

/// The collector's thread.
fn run_collector(heap: &Heap, keeper: Keeper, shared: &Shared) -> Result<(), Stopped>
    requires { IsKeeperOf heap.now keeper }
{
    collect_all::<Brand>(heap, keeper, shared, Blank::new(1))
}

/// The two loops.
fn run_loops<R: Threads + Sync>(
    rt: &R,
    heap: &Heap,
    sender: Pass,
    receiver: Pass,
    shared: &Shared,
) -> (Result<(), Stopped>, Result<Received, Stopped>)
    requires sender { IsPassOf heap.now sender }
    requires receiver { IsPassOf heap.now receiver }
    requires registers { heap.now.geometry.registers ≡ 8 }
{
    thread::join(
        rt,
        || -> Result<(), Stopped>
            requires pass { IsPassOf heap.now sender }
            requires registers { heap.now.geometry.registers ≡ 8 }
        { run_sender(heap, sender, shared) },
        || -> Result<Received, Stopped>
            requires pass { IsPassOf heap.now receiver }
            requires registers { heap.now.geometry.registers ≡ 8 }
        { run_receiver(heap, receiver, shared) },
    )
}

/// The two loops and the collector. What was received, where none of the three stopped before its end.
pub fn run_all<R: Threads + Sync>(
    rt: &R,
    heap: &Heap,
    sender: Pass,
    receiver: Pass,
    keeper: Keeper,
) -> Result<Received, Stopped>
    requires sender { IsPassOf heap.now sender }
    requires receiver { IsPassOf heap.now receiver }
    requires keeper { IsKeeperOf heap.now keeper }
    requires registers { heap.now.geometry.registers ≡ 8 }
{
    let told = Shared::new();
    let shared = &told;
    let ((sent, received), collected) = thread::join(
        rt,
        || -> (Result<(), Stopped>, Result<Received, Stopped>)
            requires sender { IsPassOf heap.now sender }
            requires receiver { IsPassOf heap.now receiver }
            requires registers { heap.now.geometry.registers ≡ 8 }
        { run_loops(rt, heap, sender, receiver, shared) },
        || -> Result<(), Stopped>
            requires { IsKeeperOf heap.now keeper }
        { run_collector(heap, keeper, shared) },
    );
    sent?;
    collected?;
    received
}
