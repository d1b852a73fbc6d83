//! A pass that makes calls which are drawn one after another, and writes down each with its answer.
ghost use Rattle.std.specs.Prelude.{◌≡◌, ◌<◌};
ghost use Rattle.hk_words.specs.Calls.{RegistersFit};
ghost use Rattle.hk_table.specs.Passes.{IsPassOf};

use super::calls::{Answer, ask};
use super::record::{Access, Record};
use crate::draws::draws_of_seat;
use hk_table::{Heap, Pass, Steps};
use hk_words::{Call, Draws, Reply, Shape};
use std::alloc::{AllocError, Global};
use std::sync::atomic::{AtomicU64, Ordering};
use std::sync::ledger::Ledger;

/// The board's name. The board has four reference fields and four number fields.
pub const BOARD: u64 = (1 << 62) | (4 << 44) | (4 << 40);

/// What is added to a number field in an access.
const NUMBERS: u64 = 256;

/// What a pass has to do next.
#[derive(Clone, Copy, Debug, PartialEq, Eq)]
enum Next {
    /// Whatever is drawn.
    Anything,
    /// Write the name of the object that it made.
    Name(u8),
    /// Ask whether what it loaded is null.
    Ask(u8),
    /// Read the name of the object that it loaded.
    Read(u8),
}

/// A pass with what it wrote down.
#[derive(Drop)]
pub struct Player {
    pub pass: Pass,
    pub records: Vec<Record>,
    seat: u8,
    draws: Draws,
    /// The names of the objects in the registers, 0 where there is none.
    names: [u64; 8],
    next: Next,
    drawn: u64,
    /// The record of the load whose object isn't known yet.
    load: usize,
}

/// How many reference fields the object of a name has.
fn refs_of(name: u64) -> u64 {
    (name >> 44) & 15
}

/// How many number fields the object of a name has.
fn nums_of(name: u64) -> u64 {
    (name >> 40) & 15
}

impl Player {
    pub fn new(alloc: Global, pass: Pass) -> Player
        ensures { result.pass ≡ pass }
    {
        let seat = pass.seat();
        Player {
            pass,
            records: Vec::new(alloc),
            seat,
            draws: draws_of_seat(seat),
            names: [BOARD, 0, 0, 0, 0, 0, 0, 0],
            next: Next::Anything,
            drawn: 0,
            load: 0,
        }
    }

    /// Makes so many calls.
    pub fn play<L: Ledger>(
        &mut self,
        heap: &Heap,
        clock: &AtomicU64,
        calls: u32,
        steps: &mut Steps<L>,
    ) -> Result<(), AllocError>
        requires pass { IsPassOf heap.now self.old.pass }
        requires registers { heap.now.geometry.registers ≡ 8 }
        ensures pass { IsPassOf heap.now self.new.pass }
        ensures number { self.new.pass.number ≡ self.old.pass.number }
    {
        for count in 0..calls {
            let call = self.next_call(calls - count > 3);
            if call.registers_fit(8) {
                self.play_one(heap, clock, call, steps)?;
            }
        }
        Ok(())
    }

    /// Makes one call, and writes it down.
    pub fn play_one<L: Ledger>(
        &mut self,
        heap: &Heap,
        clock: &AtomicU64,
        call: Call,
        steps: &mut Steps<L>,
    ) -> Result<(), AllocError>
        requires pass { IsPassOf heap.now self.old.pass }
        requires registers { heap.now.geometry.registers ≡ 8 }
        requires fits { RegistersFit 8 call }
        ensures pass { IsPassOf heap.now self.new.pass }
        ensures number { self.new.pass.number ≡ self.old.pass.number }
    {
        let before = clock.fetch_add(1, Ordering::SeqCst);
        let answer = ask(heap, &mut self.pass, call, steps);
        let after = clock.fetch_add(1, Ordering::SeqCst);
        self.write_down(call, answer, before, after)
    }

    /// The next call; one that needs others after it only where there is room for them.
    fn next_call(&mut self, room: bool) -> Call
        ensures { self.new.pass ≡ self.old.pass }
    {
        match self.next {
            Next::Anything => {}
            Next::Name(reg) => {
                return Call::Put {
                    reg,
                    field: 0,
                    value: self.name(reg),
                };
            }
            Next::Ask(reg) => return Call::IsNull { reg },
            Next::Read(reg) => return Call::Get { reg, field: 0 },
        }
        let call = self.any_call();
        match call {
            Call::Load { dest, .. } | Call::New { dest, .. } if !room => Call::Clear { dest },
            _ => call,
        }
    }

    /// A call that is drawn. Half of those that go through an object go through the board.
    fn any_call(&mut self) -> Call
        ensures { self.new.pass ≡ self.old.pass }
    {
        let reg = if self.draws.below(2) == 0 {
            0
        } else {
            self.register()
        };
        let other = self.register();
        let dest = 1 + self.draws.below(7) as u8;
        let name = self.name(reg);
        match self.draws.below(100) {
            0..25 => Call::Get {
                reg,
                field: self.field(nums_of(name)),
            },
            25..40 => Call::Put {
                reg,
                field: 1 + self.field(nums_of(name).saturating_sub(1)),
                value: self.fresh(0, 0),
            },
            40..58 => Call::Load {
                dest,
                reg,
                field: self.field(refs_of(name)),
            },
            58..73 => Call::Store {
                reg,
                field: self.field(refs_of(name)),
                from: other,
            },
            73..78 => Call::Move { dest, from: other },
            78..82 => Call::Clear { dest },
            82..90 => Call::New {
                dest,
                shape: self.shape(),
            },
            90..95 => Call::IsNull { reg: other },
            _ => Call::Same { a: reg, b: other },
        }
    }

    fn register(&mut self) -> u8
        ensures { self.new.pass ≡ self.old.pass }
    {
        self.draws.below(8) as u8
    }

    /// One of so many fields, and now and then the one after them.
    fn field(&mut self, count: u64) -> u8
        ensures pass { self.new.pass ≡ self.old.pass }
        ensures small { result < 16 }
    {
        let count = count.min(15);
        if count == 0 || self.draws.below(16) == 0 {
            return count as u8;
        }
        self.draws.below(count) as u8
    }

    /// Mostly a leaf, and else an object with one or two reference fields.
    fn shape(&mut self) -> Shape
        ensures { self.new.pass ≡ self.old.pass }
    {
        let refs = [0, 0, 0, 1, 2]
            .get(self.draws.below(5) as usize)
            .copied()
            .unwrap_or(0);
        let nums = 1 + self.draws.below(3) as u8;
        Shape { refs, nums }
    }

    /// A number that nobody has drawn before, for an object of so many fields.
    fn fresh(&mut self, refs: u64, nums: u64) -> u64
        ensures { self.new.pass ≡ self.old.pass }
    {
        self.drawn = self.drawn.wrapping_add(1);
        ((u64::from(self.seat) + 1) << 48) | (refs << 44) | (nums << 40) | self.drawn
    }

    /// The name of the object in a register.
    fn name(&self, reg: u8) -> u64 {
        self.names.get(usize::from(reg)).copied().unwrap_or(0)
    }

    fn set_name(&mut self, reg: u8, name: u64)
        ensures { self.new.pass ≡ self.old.pass }
    {
        if let Some(known) = self.names.get_mut(usize::from(reg)) {
            *known = name;
        }
    }

    /// Writes down a call.
    fn write_down(
        &mut self,
        call: Call,
        answer: Answer,
        before: u64,
        after: u64,
    ) -> Result<(), AllocError>
        ensures { self.new.pass ≡ self.old.pass }
    {
        if let (Next::Read(reg), Answer::Replied(Reply::Num(name))) = (self.next, answer) {
            self.set_name(reg, name);
            self.loaded(name);
        }
        let access = self.access(call, answer);
        let record = Record {
            seat: self.seat,
            call,
            answer,
            before,
            after,
            access,
        };
        self.follow(call, answer);
        self.records.push(record)?;
        Ok(())
    }

    /// The object of the last load is known.
    fn loaded(&mut self, name: u64)
        ensures { self.new.pass ≡ self.old.pass }
    {
        if let Some(record) = self.records.get_mut(self.load) {
            if let Some(access) = &mut record.access {
                access.value = name;
            }
        }
    }

    /// The field that a call read or wrote.
    fn access(&self, call: Call, answer: Answer) -> Option<Access> {
        let Answer::Replied(reply) = answer else {
            return None;
        };
        match (call, reply) {
            (Call::Get { reg, field }, Reply::Num(value)) => Some(Access {
                object: self.name(reg),
                field: NUMBERS + u64::from(field),
                value,
                writes: false,
            }),
            (Call::Put { reg, field, value }, Reply::Unit) => Some(Access {
                object: self.name(reg),
                field: NUMBERS + u64::from(field),
                value,
                writes: true,
            }),
            (Call::Load { reg, field, .. }, Reply::Unit) => Some(Access {
                object: self.name(reg),
                field: u64::from(field),
                value: 0,
                writes: false,
            }),
            (Call::Store { reg, field, from }, Reply::Unit) => Some(Access {
                object: self.name(reg),
                field: u64::from(field),
                value: self.name(from),
                writes: true,
            }),
            _ => None,
        }
    }

    /// What a call that was done leaves in the registers, and what comes next.
    fn follow(&mut self, call: Call, answer: Answer)
        ensures { self.new.pass ≡ self.old.pass }
    {
        let asked = self.next;
        self.next = Next::Anything;
        let Answer::Replied(reply) = answer else {
            return;
        };
        match (call, reply) {
            (Call::Load { dest, .. }, Reply::Unit) => {
                self.load = self.records.len();
                self.set_name(dest, 0);
                self.next = Next::Ask(dest);
            }
            (Call::New { dest, shape }, Reply::Unit) => {
                let name = self.fresh(u64::from(shape.refs()), u64::from(shape.nums()));
                self.set_name(dest, name);
                self.next = Next::Name(dest);
            }
            (Call::Move { dest, from }, Reply::Unit) => self.set_name(dest, self.name(from)),
            (Call::Clear { dest }, Reply::Unit) => self.set_name(dest, 0),
            (Call::IsNull { reg }, Reply::No) if asked == Next::Ask(reg) => {
                self.next = Next::Read(reg);
            }
            _ => {}
        }
    }
}
