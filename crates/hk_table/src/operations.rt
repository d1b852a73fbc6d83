//! The calls on the shared heap.
ghost use Rattle.std.specs.Prelude.{◌≡◌, ℕ, ◌+◌, ◌<◌, ◌≤◌, IfOk, IfErr, false};
ghost use Rattle.hk_words.specs.Bounds.{places_of};
ghost use Rattle.hk_words.specs.Calls.{RegistersFit};
ghost use Rattle.hk_words.specs.declared.call.Call.TheVariants.{Get, Put, Load, Store, Move, Clear, New};
ghost use Rattle.hk_words.specs.declared.call.Reply.TheVariants.{Num, Unit as NoValue};
ghost use Rattle.hk_model.specs.History.{is_question};
ghost use Rattle.hk_core.specs.declared.outcome.Outcome.TheVariants.{Done, Full};
ghost use Rattle.hk_table.specs.Errors.{Refuses, RefusedOrFull};
ghost use Rattle.hk_table.specs.Passes.{IsPassOf, known};
ghost use Rattle.hk_table.specs.Calls.{Called};

use crate::error::{HeapError, error_of};
use crate::heap::Heap;
use crate::pass::Pass;
use crate::steps::Steps;
use hk_core::Outcome;
use hk_words::{Call, Reply, Shape};
use std::sync::ledger::Ledger;

/// The number that a call answered.
fn number_in(outcome: Outcome) -> u64
    requires { (n : ℕ) × (outcome ≡ Done (Num n)) }
    ensures { outcome ≡ Done (Num result) }
{
    match outcome {
        Outcome::Done(Reply::Num(value)) => value,
        Outcome::Done(_) | Outcome::Full { .. } => unreachable!(),
    }
}

impl Heap {
    /// A call, where it isn't refused.
    fn call<L: Ledger>(
        &self,
        pass: &mut Pass,
        call: Call,
        steps: &mut Steps<L>,
    ) -> Result<Outcome, HeapError>
        requires pass { IsPassOf self.now pass.old }
        requires question { is_question call ≡ false }
        requires registers { RegistersFit self.now.geometry.registers call }
        ensures pass { IsPassOf self.now pass.new }
        ensures number { pass.new.number ≡ pass.old.number }
        ensures called { IfOk result (λ outcome. Called self.now.geometry (known pass.old) call outcome (known pass.new)) }
        ensures refused { IfErr result (λ error. Refuses self.now.geometry (known pass.old) call error × (pass.new ≡ pass.old) × (steps.new ≡ steps.old)) }
        ensures steps { steps.new ≤ steps.old + places_of call }
    {
        if let Some(fault) = pass.refusal(&call) {
            return Err(error_of(fault));
        }
        let first = pass.first(call);
        let outcome = self.operate(&mut pass.seat, &mut pass.registers, first, steps);
        pass.begun += 1;
        Ok(outcome)
    }

    /// A number field of an object.
    pub fn get<L: Ledger>(
        &self,
        pass: &mut Pass,
        reg: u8,
        field: u8,
        steps: &mut Steps<L>,
    ) -> Result<u64, HeapError>
        requires pass { IsPassOf self.now pass.old }
        requires register { reg < self.now.geometry.registers }
        ensures pass { IsPassOf self.now pass.new }
        ensures number { pass.new.number ≡ pass.old.number }
        ensures value { IfOk result (λ value. Called self.now.geometry (known pass.old) (Get reg field) (Done (Num value)) (known pass.new)) }
        ensures refused { IfErr result (λ error. Refuses self.now.geometry (known pass.old) (Get reg field) error × (pass.new ≡ pass.old) × (steps.new ≡ steps.old)) }
        ensures steps { steps.new ≤ steps.old + 3 }
    {
        Ok(number_in(self.call(pass, Call::Get { reg, field }, steps)?))
    }

    /// Writes a number field of an object.
    pub fn put<L: Ledger>(
        &self,
        pass: &mut Pass,
        reg: u8,
        field: u8,
        value: u64,
        steps: &mut Steps<L>,
    ) -> Result<(), HeapError>
        requires pass { IsPassOf self.now pass.old }
        requires register { reg < self.now.geometry.registers }
        ensures pass { IsPassOf self.now pass.new }
        ensures number { pass.new.number ≡ pass.old.number }
        ensures done { IfOk result (λ _. Called self.now.geometry (known pass.old) (Put reg field value) (Done NoValue) (known pass.new)) }
        ensures refused { IfErr result (λ error. Refuses self.now.geometry (known pass.old) (Put reg field value) error × (pass.new ≡ pass.old) × (steps.new ≡ steps.old)) }
        ensures steps { steps.new ≤ steps.old + 3 }
    {
        let _outcome = self.call(pass, Call::Put { reg, field, value }, steps)?;
        Ok(())
    }

    /// Loads a reference field of an object into a register.
    pub fn load<L: Ledger>(
        &self,
        pass: &mut Pass,
        dest: u8,
        reg: u8,
        field: u8,
        steps: &mut Steps<L>,
    ) -> Result<(), HeapError>
        requires pass { IsPassOf self.now pass.old }
        requires registers { RegistersFit self.now.geometry.registers (Load dest reg field) }
        ensures pass { IsPassOf self.now pass.new }
        ensures number { pass.new.number ≡ pass.old.number }
        ensures done { IfOk result (λ _. Called self.now.geometry (known pass.old) (Load dest reg field) (Done NoValue) (known pass.new)) }
        ensures refused { IfErr result (λ error. Refuses self.now.geometry (known pass.old) (Load dest reg field) error × (pass.new ≡ pass.old) × (steps.new ≡ steps.old)) }
        ensures steps { steps.new ≤ steps.old + 10 }
    {
        let _outcome = self.call(pass, Call::Load { dest, reg, field }, steps)?;
        Ok(())
    }

    /// Stores a register into a reference field of an object.
    pub fn store<L: Ledger>(
        &self,
        pass: &mut Pass,
        reg: u8,
        field: u8,
        from: u8,
        steps: &mut Steps<L>,
    ) -> Result<(), HeapError>
        requires pass { IsPassOf self.now pass.old }
        requires registers { RegistersFit self.now.geometry.registers (Store reg field from) }
        ensures pass { IsPassOf self.now pass.new }
        ensures number { pass.new.number ≡ pass.old.number }
        ensures done { IfOk result (λ _. Called self.now.geometry (known pass.old) (Store reg field from) (Done NoValue) (known pass.new)) }
        ensures refused { IfErr result (λ error. Refuses self.now.geometry (known pass.old) (Store reg field from) error × (pass.new ≡ pass.old) × (steps.new ≡ steps.old)) }
        ensures steps { steps.new ≤ steps.old + 7 }
    {
        let _outcome = self.call(pass, Call::Store { reg, field, from }, steps)?;
        Ok(())
    }

    /// Copies a register.
    pub fn shift<L: Ledger>(
        &self,
        pass: &mut Pass,
        dest: u8,
        from: u8,
        steps: &mut Steps<L>,
    ) -> Result<(), HeapError>
        requires pass { IsPassOf self.now pass.old }
        requires registers { RegistersFit self.now.geometry.registers (Move dest from) }
        ensures pass { IsPassOf self.now pass.new }
        ensures number { pass.new.number ≡ pass.old.number }
        ensures done { IfOk result (λ _. Called self.now.geometry (known pass.old) (Move dest from) (Done NoValue) (known pass.new)) }
        ensures refused { IfErr result (λ error. Refuses self.now.geometry (known pass.old) (Move dest from) error × (pass.new ≡ pass.old) × (steps.new ≡ steps.old)) }
        ensures steps { steps.new ≤ steps.old + 3 }
    {
        let _outcome = self.call(pass, Call::Move { dest, from }, steps)?;
        Ok(())
    }

    /// Makes a register null.
    pub fn clear<L: Ledger>(
        &self,
        pass: &mut Pass,
        dest: u8,
        steps: &mut Steps<L>,
    ) -> Result<(), HeapError>
        requires pass { IsPassOf self.now pass.old }
        requires registers { RegistersFit self.now.geometry.registers (Clear dest) }
        ensures pass { IsPassOf self.now pass.new }
        ensures number { pass.new.number ≡ pass.old.number }
        ensures done { IfOk result (λ _. Called self.now.geometry (known pass.old) (Clear dest) (Done NoValue) (known pass.new)) }
        ensures refused { IfErr result (λ error. Refuses self.now.geometry (known pass.old) (Clear dest) error × (pass.new ≡ pass.old) × (steps.new ≡ steps.old)) }
        ensures steps { steps.new ≤ steps.old + 1 }
    {
        let _outcome = self.call(pass, Call::Clear { dest }, steps)?;
        Ok(())
    }

    /// Makes an object. A call that finds too few words left stands in the history too, and changes nothing else.
    pub fn make<L: Ledger>(
        &self,
        pass: &mut Pass,
        dest: u8,
        shape: Shape,
        steps: &mut Steps<L>,
    ) -> Result<(), HeapError>
        requires pass { IsPassOf self.now pass.old }
        requires registers { RegistersFit self.now.geometry.registers (New dest shape) }
        ensures pass { IsPassOf self.now pass.new }
        ensures number { pass.new.number ≡ pass.old.number }
        ensures done { IfOk result (λ _. Called self.now.geometry (known pass.old) (New dest shape) (Done NoValue) (known pass.new)) }
        ensures failed { IfErr result (λ error. RefusedOrFull error
            (Refuses self.now.geometry (known pass.old) (New dest shape) error × (pass.new ≡ pass.old) × (steps.new ≡ steps.old))
            (λ words. Called self.now.geometry (known pass.old) (New dest shape) (Full words) (known pass.new))) }
        ensures steps { steps.new ≤ steps.old + 7 }
    {
        match self.call(pass, Call::New { dest, shape }, steps) {
            Ok(Outcome::Done(_)) => Ok(()),
            Ok(Outcome::Full { words }) => Err(HeapError::Full { words }),
            Err(error) => Err(error),
        }
    }
}
