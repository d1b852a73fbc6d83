//! One call of a pass, by its kind, and what it was answered.
ghost use Rattle.std.specs.Prelude.{◌≡◌};
ghost use Rattle.hk_words.specs.Calls.{RegistersFit};
ghost use Rattle.hk_table.specs.Passes.{IsPassOf};

use hk_table::{Heap, HeapError, Pass, Steps};
use hk_words::{Call, Reply};
use std::sync::ledger::Ledger;

/// What a call was answered.
#[derive(Clone, Copy, Debug, PartialEq, Eq)]
pub enum Answer {
    Replied(Reply),
    /// There was no room; so many words were found used.
    Full(u64),
    Spent,
}

/// Makes a call.
pub fn ask<L: Ledger>(heap: &Heap, pass: &mut Pass, call: Call, steps: &mut Steps<L>) -> Answer
    requires pass { IsPassOf heap.now pass.old }
    requires registers { heap.now.geometry.registers ≡ 8 }
    requires fits { RegistersFit 8 call }
    ensures pass { IsPassOf heap.now pass.new }
    ensures number { pass.new.number ≡ pass.old.number }
{
    match call {
        Call::Get { reg, field } => match heap.get(pass, reg, field, steps) {
            Ok(number) => Answer::Replied(Reply::Num(number)),
            Err(error) => not_done(error),
        },
        Call::Put { reg, field, value } => of_unit(heap.put(pass, reg, field, value, steps)),
        Call::Load { dest, reg, field } => of_unit(heap.load(pass, dest, reg, field, steps)),
        Call::Store { reg, field, from } => of_unit(heap.store(pass, reg, field, from, steps)),
        Call::Move { dest, from } => of_unit(heap.shift(pass, dest, from, steps)),
        Call::Clear { dest } => of_unit(heap.clear(pass, dest, steps)),
        Call::New { dest, shape } => of_unit(heap.make(pass, dest, shape, steps)),
        Call::Same { a, b } => of_question(heap.same(pass, a, b)),
        Call::IsNull { reg } => of_question(heap.is_null(pass, reg)),
    }
}

fn of_unit(done: Result<(), HeapError>) -> Answer {
    match done {
        Ok(()) => Answer::Replied(Reply::Unit),
        Err(error) => not_done(error),
    }
}

fn of_question(holds: bool) -> Answer {
    Answer::Replied(if holds { Reply::Yes } else { Reply::No })
}

fn not_done(error: HeapError) -> Answer {
    match error {
        HeapError::Nil => Answer::Replied(Reply::Nil),
        HeapError::Field => Answer::Replied(Reply::Field),
        HeapError::Full { words } => Answer::Full(words),
        HeapError::Spent => Answer::Spent,
    }
}
