//! Calls of a pass as they were answered, and the heap that never collects, on which they are replayed.
ghost use Rattle.std.specs.Prelude.{◌≡◌, ℕ, ◌<◌, length};
ghost use Rattle.hk_words.specs.declared.geometry.TheConstants.{REGISTERS};
ghost use Rattle.hk_model.specs.Heap.{register_count};
ghost use Rattle.hk_table.specs.Passes.{IsPassOf};

use hk_model::Plain;
use hk_table::{Heap, HeapError, Pass, Steps};
use hk_words::{Call, Memory, REGISTERS, Reply, Shape};
use std::alloc::Global;
use std::process::Abort;
use std::sync::ledger::Ledger;

/// The tasks of the heap.
pub const TASKS: u8 = 4;

/// A call and what was answered.
#[derive(Clone, Copy, Debug, PartialEq, Eq)]
pub struct Entry {
    pub call: Call,
    pub reply: Reply,
}

/// What the plain heap answers where the shared one refuses. No pass comes to the end of its calls here.
fn refused(rt: &impl Abort, error: HeapError) -> Reply {
    match error {
        HeapError::Nil => Reply::Nil,
        HeapError::Field => Reply::Field,
        HeapError::Full { .. } => Reply::Full,
        HeapError::Spent => panic!(rt; "a pass has begun all its calls"),
    }
}

/// The reply of a call without a value.
fn unit(rt: &impl Abort, answer: Result<(), HeapError>) -> Reply {
    match answer {
        Ok(()) => Reply::Unit,
        Err(error) => refused(rt, error),
    }
}

/// The reply of a question.
fn said(yes: bool) -> Reply {
    if yes { Reply::Yes } else { Reply::No }
}

/// Does a call on the shared heap, and answers it as the plain heap would.
pub fn ask<L: Ledger>(
    rt: &impl Abort,
    heap: &Heap,
    pass: &mut Pass,
    call: Call,
    steps: &mut Steps<L>,
) -> Reply
    requires { IsPassOf heap.now pass.old }
    ensures { IsPassOf heap.now pass.new }
{
    assert!(rt; call.registers_fit(heap.geometry().registers()));
    match call {
        Call::Get { reg, field } => match heap.get(pass, reg, field, steps) {
            Ok(number) => Reply::Num(number),
            Err(error) => refused(rt, error),
        },
        Call::Put { reg, field, value } => unit(rt, heap.put(pass, reg, field, value, steps)),
        Call::Load { dest, reg, field } => unit(rt, heap.load(pass, dest, reg, field, steps)),
        Call::Store { reg, field, from } => unit(rt, heap.store(pass, reg, field, from, steps)),
        Call::Move { dest, from } => unit(rt, heap.shift(pass, dest, from, steps)),
        Call::Clear { dest } => unit(rt, heap.clear(pass, dest, steps)),
        Call::New { dest, shape } => unit(rt, heap.make(pass, dest, shape, steps)),
        Call::Same { a, b } => said(heap.same(pass, a, b)),
        Call::IsNull { reg } => said(heap.is_null(pass, reg)),
    }
}

/// The plain heap of the tasks.
#[derive(Drop)]
pub struct Replay {
    plain: Plain,
    ghost tasks: { length plain.registers ≡ 4 },
    ghost registers: { (seat : ℕ) → seat < 4 → register_count plain seat ≡ REGISTERS },
}

impl Replay {
    pub fn open(alloc: Global, board: Shape) -> Result<Replay, Memory> {
        let plain = Plain::open(alloc, TASKS, board)?;
        Ok(Replay { plain })
    }

    /// Does the call of an entry of a seat. Its reply must be the one of the entry.
    pub fn replay(
        &mut self,
        rt: &(impl Abort + AllocGlobal),
        seat: u8,
        entry: &Entry,
    ) -> Result<(), Memory> {
        assert!(rt; seat < TASKS);
        assert!(rt; entry.call.registers_fit(REGISTERS));
        let reply = self.plain.apply(rt.alloc(), seat, entry.call)?;
        assert!(rt;
            reply == entry.reply,
            "seat {seat}: {entry:?}, but {reply:?}"
        );
        Ok(())
    }
}
