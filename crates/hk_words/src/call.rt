ghost use Rattle.std.specs.Prelude.{◌≡◌, ℕ, ◌<◌, ◌↔◌, IsTrue, IfSome, All, Contains};
ghost use Rattle.hk_words.specs.declared.call.Call.{Call};
ghost use Rattle.hk_words.specs.Calls.{entered, target, sources, IsWritable, RegistersFit};

use crate::Shape;

/// A call of a task on the heap. Registers are the calling task's own; a field counts within its part of the
/// object, the reference fields or the number fields, from 0.
#[derive(Clone, Copy, Debug, PartialEq, Eq)]
pub enum Call {
    /// Reads a number field of the object that a register refers to.
    Get { reg: u8, field: u8 },
    /// Writes a number field.
    Put { reg: u8, field: u8, value: u64 },
    /// Copies a reference field into a register.
    Load { dest: u8, reg: u8, field: u8 },
    /// Copies a register into a reference field.
    Store { reg: u8, field: u8, from: u8 },
    /// Copies a register into another.
    Move { dest: u8, from: u8 },
    /// Sets a register to null.
    Clear { dest: u8 },
    /// Makes an object whose fields are null and 0, and lets a register refer to it.
    New { dest: u8, shape: Shape },
    /// Asks whether two registers refer to one object, or are both null.
    Same { a: u8, b: u8 },
    /// Asks whether a register is null.
    IsNull { reg: u8 },
}

impl Call {
    /// The register whose object the call goes through.
    pub fn entered(&self) -> Option<u8>
        ensures { result ≡ entered self.now }
    {
        match *self {
            Call::Get { reg, .. }
            | Call::Put { reg, .. }
            | Call::Load { reg, .. }
            | Call::Store { reg, .. } => Some(reg),
            Call::Move { .. }
            | Call::Clear { .. }
            | Call::New { .. }
            | Call::Same { .. }
            | Call::IsNull { .. } => None,
        }
    }

    /// The register that the call writes.
    pub fn target(&self) -> Option<u8>
        ensures { result ≡ target self.now }
    {
        match *self {
            Call::Load { dest, .. }
            | Call::Move { dest, .. }
            | Call::Clear { dest }
            | Call::New { dest, .. } => Some(dest),
            Call::Get { .. }
            | Call::Put { .. }
            | Call::Store { .. }
            | Call::Same { .. }
            | Call::IsNull { .. } => None,
        }
    }

    /// Whether each register of the call is one of so many, and the one that it writes isn't register 0, which holds
    /// the board for good.
    pub fn registers_fit(&self, registers: u8) -> bool
        ensures { IsTrue result ↔ RegistersFit registers self.now }
    {
        let is_read = |reg: u8| reg < registers;
        let is_written = |reg: u8| 0 < reg && reg < registers;
        match *self {
            Call::Get { reg, .. } | Call::Put { reg, .. } | Call::IsNull { reg } => is_read(reg),
            Call::Load { dest, reg, .. } => is_written(dest) && is_read(reg),
            Call::Store { reg, from, .. } => is_read(reg) && is_read(from),
            Call::Move { dest, from } => is_written(dest) && is_read(from),
            Call::Clear { dest } | Call::New { dest, .. } => is_written(dest),
            Call::Same { a, b } => is_read(a) && is_read(b),
        }
    }
}

/// What a call answers.
#[derive(Clone, Copy, Debug, PartialEq, Eq)]
pub enum Reply {
    /// The call was done, and has no value to answer.
    Unit,
    /// The number that was read.
    Num(u64),
    Yes,
    No,
    /// The register that the call goes through is null. Nothing was done.
    Nil,
    /// The object has no such field. Nothing was done.
    Field,
    /// There was no room for the new object. Nothing was done.
    Full,
}

/// What holds of the registers of each call: they fit exactly where each one that is read is there, and the one that is
/// written can be written; and the register that a call goes through is one that it reads.
pub fn call_laws()
    ensures fit { (registers : ℕ) (call : Call) → RegistersFit registers call
        ↔ (All (λ reg. reg < registers) (sources call) × IfSome (target call) (IsWritable registers)) }
    ensures entered { (call : Call) → IfSome (entered call) (Contains (sources call)) }
{}
