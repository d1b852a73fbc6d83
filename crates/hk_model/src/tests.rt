ghost use Rattle.std.specs.Prelude.{◌≡◌, ℕ, ◌<◌, length};
ghost use Rattle.hk_model.specs.Heap.{register_count};

use crate::{Memory, Plain};
use hk_words::{Call, REGISTERS, Reply, Shape};
use std::alloc::Global;
use std::process::Abort;
use std::test::Fail;

/// Makes the calls of a table in order on a heap for so many tasks with so many registers each, and compares each answer
/// with the one beside it.
fn play(
    rt: &impl Abort,
    alloc: Global,
    plain: Plain,
    tasks: u8,
    registers: u8,
    table: &[(u8, Call, Reply)],
) -> Result<(), Memory>
    requires tasks { length plain.registers ≡ tasks }
    requires registers { (seat : ℕ) → seat < tasks → register_count plain seat ≡ registers }
{
    let mut plain = plain;
    for (seat, call, want) in table {
        assert!(rt; *seat < tasks && call.registers_fit(registers), "{call:?}");
        let reply = plain.apply(alloc, *seat, *call)?;
        assert_eq!(rt; reply, *want, "seat {seat}: {call:?}");
    }
    Ok(())
}

fn get(reg: u8, field: u8) -> Call {
    Call::Get { reg, field }
}

fn put(reg: u8, field: u8, value: u64) -> Call {
    Call::Put { reg, field, value }
}

fn load(dest: u8, reg: u8, field: u8) -> Call {
    Call::Load { dest, reg, field }
}

fn store(reg: u8, field: u8, from: u8) -> Call {
    Call::Store { reg, field, from }
}

fn copy(dest: u8, from: u8) -> Call {
    Call::Move { dest, from }
}

fn clear(dest: u8) -> Call {
    Call::Clear { dest }
}

fn make(dest: u8, shape: Shape) -> Call {
    Call::New { dest, shape }
}

fn same(a: u8, b: u8) -> Call {
    Call::Same { a, b }
}

fn is_null(reg: u8) -> Call {
    Call::IsNull { reg }
}

#[test]
fn a_board_of_one_reference_and_one_number(rt: HostRuntime) -> Result<(), Fail> {
    let board = Shape::new(1, 1).ok_or("shape")?;
    let table = [
        (0, put(0, 0, 9), Reply::Unit),
        (0, get(0, 0), Reply::Num(9)),
        (0, load(1, 0, 0), Reply::Unit),
        (0, is_null(1), Reply::Yes),
        (0, get(1, 0), Reply::Nil),
        (0, get(0, 1), Reply::Field),
    ];
    let plain = Plain::open(rt.alloc(), 1, board)?;
    play(&rt, rt.alloc(), plain, 1, REGISTERS, &table)?;
    Ok(())
}

#[test]
fn two_registers(rt: HostRuntime) -> Result<(), Fail> {
    let board = Shape::new(1, 1).ok_or("shape")?;
    let table = [
        (0, put(0, 0, 9), Reply::Unit),
        (0, get(0, 0), Reply::Num(9)),
        (0, load(1, 0, 0), Reply::Unit),
        (0, is_null(1), Reply::Yes),
    ];
    let plain = Plain::wide(rt.alloc(), 2, 1, board)?;
    play(&rt, rt.alloc(), plain, 1, 2, &table)?;
    Ok(())
}

/// Two tasks over a board of two reference fields and one number field. Task 0 makes a pair, an object of one
/// reference and two numbers; task 1 makes a link, an object of one reference.
#[test]
fn two_tasks_share_objects_through_the_board(rt: HostRuntime) -> Result<(), Fail> {
    let board = Shape::new(2, 1).ok_or("shape")?;
    let pair = Shape::new(1, 2).ok_or("shape")?;
    let link = Shape::new(1, 0).ok_or("shape")?;
    let table = [
        // at the start: register 0 is the board, and the others are null
        (0, is_null(0), Reply::No),
        (1, is_null(0), Reply::No),
        (1, is_null(1), Reply::Yes),
        (0, is_null(7), Reply::Yes),
        (0, same(1, 2), Reply::Yes),
        (0, same(0, 1), Reply::No),
        (0, same(1, 0), Reply::No),
        (0, get(0, 0), Reply::Num(0)),
        // the pair in register 1 of task 0
        (0, make(1, pair), Reply::Unit),
        (0, get(1, 1), Reply::Num(0)),
        (0, put(1, 1, 7), Reply::Unit),
        (0, get(1, 1), Reply::Num(7)),
        (0, get(1, 0), Reply::Num(0)),
        (0, get(1, 2), Reply::Field),
        (0, put(1, 2, 8), Reply::Field),
        // task 1 gets it through the board's second reference; the first is still null
        (0, store(0, 1, 1), Reply::Unit),
        (1, load(2, 0, 0), Reply::Unit),
        (1, is_null(2), Reply::Yes),
        (1, load(2, 0, 1), Reply::Unit),
        (1, get(2, 1), Reply::Num(7)),
        (1, put(2, 0, 6), Reply::Unit),
        (0, get(1, 0), Reply::Num(6)),
        // a link that refers to the pair, which refers to the link
        (1, make(3, link), Reply::Unit),
        (1, store(3, 0, 2), Reply::Unit),
        (1, store(2, 0, 3), Reply::Unit),
        (0, load(4, 1, 0), Reply::Unit),
        (0, load(5, 4, 0), Reply::Unit),
        (0, same(1, 5), Reply::Yes),
        (0, same(4, 5), Reply::No),
        // a copied register, and one that is set to null
        (0, copy(6, 4), Reply::Unit),
        (0, same(6, 4), Reply::Yes),
        (0, clear(4), Reply::Unit),
        (0, is_null(4), Reply::Yes),
        (0, same(4, 7), Reply::Yes),
        (0, same(6, 4), Reply::No),
        (0, is_null(0), Reply::No),
        // what a call that does nothing leaves as it was
        (0, get(4, 0), Reply::Nil),
        (0, put(4, 0, 1), Reply::Nil),
        (0, store(4, 0, 1), Reply::Nil),
        (0, load(6, 4, 0), Reply::Nil),
        (0, store(6, 1, 1), Reply::Field),
        (0, get(6, 0), Reply::Field),
        (0, load(6, 0, 2), Reply::Field),
        (0, is_null(6), Reply::No),
        (0, load(7, 6, 0), Reply::Unit),
        (0, same(7, 1), Reply::Yes),
        // an object once more in register 1: the old pair stands where it is still referred to
        (0, make(1, pair), Reply::Unit),
        (0, same(1, 5), Reply::No),
        (0, get(1, 1), Reply::Num(0)),
        (0, get(5, 1), Reply::Num(7)),
        (0, load(7, 1, 0), Reply::Unit),
        (0, is_null(7), Reply::Yes),
        // null is stored like any reference
        (0, store(0, 1, 4), Reply::Unit),
        (1, load(4, 0, 1), Reply::Unit),
        (1, is_null(4), Reply::Yes),
        (1, get(2, 1), Reply::Num(7)),
    ];
    let plain = Plain::open(rt.alloc(), 2, board)?;
    play(&rt, rt.alloc(), plain, 2, REGISTERS, &table)?;
    Ok(())
}
