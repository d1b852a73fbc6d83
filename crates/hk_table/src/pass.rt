//! A pass: the seat of one task on the shared heap, with what the task may read of its own without a step.
ghost use Rattle.std.specs.Prelude.{◌≡◌, ℕ, ◌<◌, IfNone, length, slice_index};
ghost use Rattle.hk_words.specs.Calls.{RegistersFit};
ghost use Rattle.hk_core.specs.Begin.{most_calls};
ghost use Rattle.hk_table.specs.Deeds.{entered_with, copied_with, refused_with, first_with};

use crate::heap::Seat;
use hk_core::{Fault, Flight, flight_by, refusal_by};
use hk_words::Call;

/// The pass of one task. What it has seen of the history, its own calls in it and the actions that it knows of stand in
/// its seat, for contracts alone.
#[derive(Drop)]
pub struct Pass {
    pub(crate) seat: Seat,
    pub(crate) number: u8,
    pub(crate) high: bool,
    /// The references in the task's registers. Only this pass changes those of the table.
    pub(crate) registers: Vec<u64>,
    pub(crate) begun: u32,
}

impl Pass {
    /// The task is a high one.
    pub fn high(&self) -> bool
        ensures { result ≡ self.now.high }
    {
        self.high
    }

    /// The number of the task's seat.
    pub fn seat(&self) -> u8
        ensures { result ≡ self.now.number }
    {
        self.number
    }

    /// The reference in a register, 0 where it is null.
    pub(crate) fn register(&self, reg: u8) -> u64
        requires { reg < length self.now.registers.items }
        ensures { result ≡ slice_index self.now.registers.items reg }
    {
        self.registers[reg as usize]
    }

    /// The reference in the register that a call goes through, and 0 where it goes through none.
    fn entered(&self, call: &Call) -> u64
        requires { RegistersFit (length self.now.registers.items) call.now }
        ensures { result ≡ entered_with self.now.registers.items call.now }
    {
        match *call {
            Call::Get { reg, .. }
            | Call::Put { reg, .. }
            | Call::Load { reg, .. }
            | Call::Store { reg, .. } => self.register(reg),
            Call::Move { .. }
            | Call::Clear { .. }
            | Call::New { .. }
            | Call::Same { .. }
            | Call::IsNull { .. } => 0,
        }
    }

    /// The reference in the register that a call copies from, and 0 where it copies from none.
    fn copied(&self, call: &Call) -> u64
        requires { RegistersFit (length self.now.registers.items) call.now }
        ensures { result ≡ copied_with self.now.registers.items call.now }
    {
        match *call {
            Call::Store { from, .. } | Call::Move { from, .. } => self.register(from),
            Call::Get { .. }
            | Call::Put { .. }
            | Call::Load { .. }
            | Call::Clear { .. }
            | Call::New { .. }
            | Call::Same { .. }
            | Call::IsNull { .. } => 0,
        }
    }

    /// Why a call isn't begun, if it isn't.
    #[tactic(auto, unfolding(crate::specs::Deeds::refused_with))]
    pub(crate) fn refusal(&self, call: &Call) -> Option<Fault>
        requires { RegistersFit (length self.now.registers.items) call.now }
        ensures refusal { result ≡ refused_with self.now.registers.items self.now.begun call.now }
        ensures room { IfNone result (self.now.begun < most_calls) }
    {
        refusal_by(self.begun, call, self.entered(call))
    }

    /// The flight of a call that begins.
    #[tactic(auto, unfolding(crate::specs::Deeds::first_with))]
    pub(crate) fn first(&self, call: Call) -> Flight
        requires { RegistersFit (length self.now.registers.items) call }
        ensures { result ≡ first_with self.now.number self.now.registers.items call }
    {
        flight_by(self.number, call, self.entered(&call), self.copied(&call))
    }
}
