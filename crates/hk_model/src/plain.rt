ghost use Rattle.std.specs.Prelude.{◌≡◌, true, ℕ, ◌+◌, ◌<◌, ◌≤◌, length, Option, Some, None, IfOk, OnOk, OnErr, IfSome, replicate};
ghost use Rattle.hk_words.specs.Calls.{RegistersFit};
ghost use Rattle.hk_words.specs.declared.call.Call.TheVariants.{Get, Put, Load, Store, Move, Clear, New, Same, IsNull};
ghost use Rattle.hk_model.specs.Heap.{Heap, KeepsTasks, opening, first_registers, born, register, register_count, refs, nums, link, value};
ghost use Rattle.hk_model.specs.History.{is_new};
ghost use Rattle.hk_words.specs.declared.call.Reply.TheVariants.{Nil, Field};
ghost use Rattle.hk_model.specs.Replies.{said, entering, has_number, has_reference, reply_of, heap_after, with_register, with_link, with_value, with_object};

use crate::object::StoredObject;
use crate::registers::Registers;
use hk_words::{Call, Memory, REGISTERS, Reply, Shape};
use std::alloc::Global;
use std::marker::Model;

/// A heap that never collects: every object that was ever made, in order of birth, and the registers of each task.
#[derive(Drop)]
pub struct Plain {
    objects: Vec<StoredObject>,
    registers: Vec<Registers>,
}

impl Model for Plain {
    ghost use Rattle.hk_model.specs.Heap.{Heap};

    ghost Value = { Heap };

    ghost use Rattle.hk_model.specs.Plain.{heap_in, IsKept};

    ghost view = { heap_in };

    ghost invariant = { IsKept };
}

impl Plain {
    /// The heap of so many tasks that holds the board alone, an object of this shape. Register 0 of each task refers to
    /// the board, and its other registers are null.
    ///
    /// [`Memory`] where there is no memory for that.
    pub fn open(alloc: Global, tasks: u8, board: Shape) -> Result<Plain, Memory>
        ensures heap { IfOk result (λ plain. plain ≡ opening tasks 8 board) }
        ensures tasks { IfOk result (λ plain. length plain.registers ≡ tasks) }
        ensures registers { IfOk result (λ plain. (task : ℕ) → task < tasks → register_count plain task ≡ 8) }
    {
        Plain::wide(alloc, REGISTERS, tasks, board)
    }

    /// The same with so many registers for each task.
    pub fn wide(alloc: Global, registers: u8, tasks: u8, board: Shape) -> Result<Plain, Memory>
        requires some { 2 ≤ registers }
        requires few { registers ≤ 32 }
        ensures heap { IfOk result (λ plain. plain ≡ opening tasks registers board) }
        ensures tasks { IfOk result (λ plain. length plain.registers ≡ tasks) }
        ensures registers { IfOk result (λ plain. (task : ℕ) → task < tasks → register_count plain task ≡ registers) }
    {
        let registers = task_registers(alloc, tasks, registers)?;
        let mut objects = Vec::new(alloc);
        objects.push(StoredObject::new(alloc, board)?)?;
        Ok(Plain { objects, registers })
    }

    /// Does a call of the task of a seat, and answers it. The seat is one of the tasks', and the registers of the call
    /// are in their ranges.
    ///
    /// [`Memory`] where there is no memory for a new object; the heap is then as it was. Only a New takes memory.
    #[tactic(auto, unfolding(crate::specs::Replies::reply_of, crate::specs::Replies::heap_after))]
    pub fn apply(&mut self, alloc: Global, seat: u8, call: Call) -> Result<Reply, Memory>
        requires seat { seat < length self.old.registers }
        requires fits { RegistersFit (register_count self.old seat) call }

        ensures reply { IfOk result (λ reply. reply ≡ reply_of self.old seat call) }
        ensures heap { OnOk result (self.new ≡ heap_after self.old seat call) }
        ensures memory { OnErr result (self.new ≡ self.old) }
        ensures only_new { OnErr result (is_new call ≡ true) }
        ensures tasks { KeepsTasks self.old self.new }
    {
        match call {
            Call::Get { reg, field } => Ok(self.get(seat, reg, field)),
            Call::Put { reg, field, value } => Ok(self.put(seat, reg, field, value)),
            Call::Load { dest, reg, field } => Ok(self.load(seat, dest, reg, field)),
            Call::Store { reg, field, from } => Ok(self.store(seat, reg, field, from)),
            Call::Move { dest, from } => {
                let birth = self.register(seat, from);
                self.set_register(seat, dest, birth);
                Ok(Reply::Unit)
            }
            Call::Clear { dest } => {
                self.set_register(seat, dest, None);
                Ok(Reply::Unit)
            }
            Call::New { dest, shape } => {
                let birth = self.add_object(alloc, shape)?;
                self.set_register(seat, dest, Some(birth));
                Ok(Reply::Unit)
            }
            Call::Same { a, b } => Ok(said(self.register(seat, a) == self.register(seat, b))),
            Call::IsNull { reg } => Ok(said(self.register(seat, reg).is_none())),
        }
    }

    fn get(&self, seat: u8, reg: u8, field: u8) -> Reply
        requires seat { seat < length self.now.registers }
        requires reg { reg < register_count self.now seat }
        ensures { result ≡ reply_of self.now seat (Get reg field) }
    {
        match self.enter_number(seat, reg, field) {
            Ok(birth) => Reply::Num(self.number(birth, field)),
            Err(reply) => reply,
        }
    }

    fn put(&mut self, seat: u8, reg: u8, field: u8, number: u64) -> Reply
        requires seat { seat < length self.old.registers }
        requires reg { reg < register_count self.old seat }
        ensures reply { result ≡ reply_of self.old seat (Put reg field number) }
        ensures heap { self.new ≡ heap_after self.old seat (Put reg field number) }
        ensures tasks { KeepsTasks self.old self.new }
    {
        match self.enter_number(seat, reg, field) {
            Ok(birth) => {
                self.set_number(birth, field, number);
                Reply::Unit
            }
            Err(reply) => reply,
        }
    }

    fn load(&mut self, seat: u8, dest: u8, reg: u8, field: u8) -> Reply
        requires seat { seat < length self.old.registers }
        requires dest { dest < register_count self.old seat }
        requires reg { reg < register_count self.old seat }
        ensures reply { result ≡ reply_of self.old seat (Load dest reg field) }
        ensures heap { self.new ≡ heap_after self.old seat (Load dest reg field) }
        ensures tasks { KeepsTasks self.old self.new }
    {
        match self.enter_reference(seat, reg, field) {
            Ok(birth) => {
                let found = self.reference(birth, field);
                self.set_register(seat, dest, found);
                Reply::Unit
            }
            Err(reply) => reply,
        }
    }

    fn store(&mut self, seat: u8, reg: u8, field: u8, from: u8) -> Reply
        requires seat { seat < length self.old.registers }
        requires reg { reg < register_count self.old seat }
        requires from { from < register_count self.old seat }
        ensures reply { result ≡ reply_of self.old seat (Store reg field from) }
        ensures heap { self.new ≡ heap_after self.old seat (Store reg field from) }
        ensures tasks { KeepsTasks self.old self.new }
    {
        match self.enter_reference(seat, reg, field) {
            Ok(birth) => {
                let stored = self.register(seat, from);
                self.set_reference(birth, field, stored);
                Reply::Unit
            }
            Err(reply) => reply,
        }
    }

    /// The birth that a register refers to, where its object has such a number field; or what a call answers that
    /// goes through the register all the same.
    fn enter_number(&self, seat: u8, reg: u8, field: u8) -> Result<usize, Reply>
        requires seat { seat < length self.now.registers }
        requires reg { reg < register_count self.now seat }
        ensures value { result ≡ entering (register self.now seat reg) (has_number self.now field) (Err Nil) (Err Field) (λ birth. Ok birth) }
        ensures born { IfOk result (λ birth. birth < born self.now) }
    {
        let Some(birth) = self.register(seat, reg) else {
            return Err(Reply::Nil);
        };
        if field < self.number_fields(birth) {
            Ok(birth)
        } else {
            Err(Reply::Field)
        }
    }

    /// The same for a reference field.
    fn enter_reference(&self, seat: u8, reg: u8, field: u8) -> Result<usize, Reply>
        requires seat { seat < length self.now.registers }
        requires reg { reg < register_count self.now seat }
        ensures value { result ≡ entering (register self.now seat reg) (has_reference self.now field) (Err Nil) (Err Field) (λ birth. Ok birth) }
        ensures born { IfOk result (λ birth. birth < born self.now) }
    {
        let Some(birth) = self.register(seat, reg) else {
            return Err(Reply::Nil);
        };
        if field < self.reference_fields(birth) {
            Ok(birth)
        } else {
            Err(Reply::Field)
        }
    }

    /// What a register holds.
    fn register(&self, seat: u8, reg: u8) -> Option<usize>
        requires seat { seat < length self.now.registers }
        requires reg { reg < register_count self.now seat }
        ensures value { result ≡ register self.now seat reg }
        ensures born { IfSome result (λ birth. birth < born self.now) }
    {
        self.registers[usize::from(seat)].get(reg)
    }

    /// How many number fields an object has.
    fn number_fields(&self, birth: usize) -> u8
        requires { birth < born self.now }
        ensures { result ≡ nums self.now birth }
    {
        self.objects[birth].shape().nums()
    }

    /// How many reference fields an object has.
    fn reference_fields(&self, birth: usize) -> u8
        requires { birth < born self.now }
        ensures { result ≡ refs self.now birth }
    {
        self.objects[birth].shape().refs()
    }

    /// What a number field holds.
    fn number(&self, birth: usize, field: u8) -> u64
        requires birth { birth < born self.now }
        requires field { field < nums self.now birth }
        ensures { result ≡ value self.now birth field }
    {
        self.objects[birth].number(field)
    }

    /// What a reference field holds.
    fn reference(&self, birth: usize, field: u8) -> Option<usize>
        requires birth { birth < born self.now }
        requires field { field < refs self.now birth }
        ensures value { result ≡ link self.now birth field }
        ensures born { IfSome result (λ target. target < born self.now) }
    {
        self.objects[birth].reference(field)
    }

    /// Writes a number field.
    fn set_number(&mut self, birth: usize, field: u8, number: u64)
        requires birth { birth < born self.old }
        requires field { field < nums self.old birth }
        ensures heap { self.new ≡ with_value self.old birth field number }
        ensures tasks { KeepsTasks self.old self.new }
    {
        self.objects[birth].set_number(field, number);
    }

    /// Writes a reference field.
    fn set_reference(&mut self, birth: usize, field: u8, target: Option<usize>)
        requires birth { birth < born self.old }
        requires field { field < refs self.old birth }
        requires target { IfSome target (λ other. other < born self.old) }
        ensures heap { self.new ≡ with_link self.old birth field target }
        ensures tasks { KeepsTasks self.old self.new }
    {
        self.objects[birth].set_reference(field, target);
    }

    /// Writes a register.
    fn set_register(&mut self, seat: u8, reg: u8, target: Option<usize>)
        requires seat { seat < length self.old.registers }
        requires reg { reg < register_count self.old seat }
        requires target { IfSome target (λ birth. birth < born self.old) }
        ensures heap { self.new ≡ with_register self.old seat reg target }
        ensures tasks { KeepsTasks self.old self.new }
    {
        self.registers[usize::from(seat)].set(reg, target);
    }

    /// Adds an object whose cells are null and 0, and gives its birth.
    fn add_object(&mut self, alloc: Global, shape: Shape) -> Result<usize, Memory>
        ensures birth { IfOk result (λ birth. birth ≡ born self.old) }
        ensures born { IfOk result (λ birth. birth < born self.new) }
        ensures heap { OnOk result (self.new ≡ with_object self.old shape) }
        ensures memory { OnErr result (self.new ≡ self.old) }
        ensures tasks { KeepsTasks self.old self.new }
    {
        let birth = self.objects.len();
        let object = StoredObject::new(alloc, shape)?;
        self.objects.push(object)?;
        Ok(birth)
    }
}

/// The registers of so many tasks as a heap opens.
fn task_registers(alloc: Global, tasks: u8, count: u8) -> Result<Vec<Registers>, Memory>
    requires { 0 < count }
    ensures { IfOk result (λ registers. registers.items ≡ replicate tasks (first_registers count)) }
{
    let mut registers = Vec::new(alloc);
    for _ in 0..tasks {
        registers.push(Registers::new(alloc, count)?)?;
    }
    Ok(registers)
}

/// The answer to a question.
fn said(holds: bool) -> Reply
    ensures { result ≡ said holds }
{
    if holds { Reply::Yes } else { Reply::No }
}
