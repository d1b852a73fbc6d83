//! Passes on threads of their own.
ghost use Rattle.std.specs.Prelude.{◌≡◌, ◌<◌, All};
ghost use Rattle.hk_table.specs.Passes.{IsPassOf};

use super::open_two;
use crate::{Heap, Pass, Steps};
use hk_words::{Geometry, Shape};
use std::alloc::AllocError;
use std::marker::Brand;
use std::process::Abort;
use std::sync::ledger::{Blank, Ledger};
use std::test::Fail;
use std::thread;
use std::thread::Threads;

/// Makes an object, puts a number of the task into it, and reads the number back.
fn keep_number<L: Ledger>(
    heap: &Heap,
    mut pass: Pass,
    shape: Shape,
    blank: Blank,
) -> (Pass, Option<u64>)
    requires name { blank.name ≡ L.name }
    requires parts { blank.parts ≡ L.parts }
    requires some { 0 < L.parts }
    requires pass { IsPassOf heap.now pass }
    requires registers { 1 < heap.now.geometry.registers }
{
    let mut steps = Steps::<L>::new(blank);
    let number = u64::from(pass.seat()) + 5;
    let made = heap.make(&mut pass, 1, shape, &mut steps);
    let put = heap.put(&mut pass, 1, 0, number, &mut steps);
    let got = heap.get(&mut pass, 1, 0, &mut steps);
    if made.is_ok() && put.is_ok() {
        (pass, got.ok())
    } else {
        (pass, None)
    }
}

/// The same, with a count of steps of its own.
fn keep(heap: &Heap, pass: Pass, shape: Shape) -> (Pass, Option<u64>)
    requires pass { IsPassOf heap.now pass }
    requires registers { 1 < heap.now.geometry.registers }
{
    keep_number::<Brand>(heap, pass, shape, Blank::new(1))
}

/// Each pass does so on a thread of its own.
fn keep_all<R: Threads + Sync>(
    rt: &R,
    heap: &Heap,
    passes: Vec<Pass>,
    shape: Shape,
) -> Result<Vec<(Pass, Option<u64>)>, AllocError>
    requires passes { All (IsPassOf heap.now) passes.items }
    requires registers { 1 < heap.now.geometry.registers }
{
    thread::map_vec(
        rt,
        passes,
        &|pass: Pass| -> (Pass, Option<u64>)
            requires { IsPassOf heap.now pass }
        { keep(heap, pass, shape) },
    )
}

#[test]
fn each_reads_its_own_number(rt: HostRuntime) -> Result<(), Fail> {
    let g = Geometry::new(8, 16, 8, 1, 1, 1, 0)?;
    let shape = Shape::new(0, 1).ok_or("no shape")?;
    let (heap, high, low, _keeper) = open_two(rt.alloc(), g)?;
    let mut done = keep_all(&rt, &heap, vec![in rt.alloc(); high, low]?, shape)?;
    let (_low, second) = done.pop().ok_or("no low pass")?;
    let (_high, first) = done.pop().ok_or("no high pass")?;
    assert_eq!(&rt; first, Some(5));
    assert_eq!(&rt; second, Some(6));
    Ok(())
}
