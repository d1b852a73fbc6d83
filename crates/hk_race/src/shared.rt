//! A task's pass of the shared heap, as its worker uses it.
ghost use Rattle.std.specs.Prelude.{◌≡◌, refl, ℕ, ◌+◌, ◌<◌, ◌≤◌, false, IfOk, IfErr};
ghost use Rattle.std.proofs.Common.{◌∙◌};
ghost use Rattle.hk_core.specs.declared.outcome.Outcome.TheVariants.{Done, Full};
ghost use Rattle.hk_model.specs.Heap.{opening_of};
ghost use Rattle.hk_model.specs.History.{is_question};
ghost use Rattle.hk_model.specs.Replies.{said};
ghost use Rattle.hk_script.specs.Walks.{AnswersCall};
ghost use Rattle.hk_table.specs.Calls.{Called};
ghost use Rattle.hk_table.specs.Errors.{Refuses, RefusedOrFull};
ghost use Rattle.hk_table.specs.Passes.{IsPassOf, known};
ghost use Rattle.hk_words.specs.Calls.{RegistersFit};
ghost use Rattle.hk_race.specs.Says.{Tells};
ghost use Rattle.hk_race.specs.declared.desk.TheConstants.{MOST_CALLS};

use crate::desk::{Desk, Said};
use crate::gate::Gate;
use crate::room::{AtWork, wait_for_room};
use hk_table::{Heap, HeapError, Pass, Steps};
use hk_words::{Call, Reply};
use std::sync::Wait;
use std::sync::ledger::Ledger;

/// A task's pass of the shared heap, with the gate that stands round each of its calls. Its worker waits for room before a New
/// while it is patient.
#[derive(Drop)]
pub(crate) struct Shared<'a, L: Ledger, R: Wait, G: Gate> {
    pub heap: &'a Heap,
    pub pass: Pass,
    pub steps: Steps<L>,
    pub rt: &'a R,
    pub gate: &'a G,
    pub at_work: &'a AtWork,
    pub calls: u64,
    pub patient: bool,
}

/// A call on the shared heap, and its reply.
#[tactic(auto, using(crate::proofs::Joining::refused_or))]
fn reply<L: Ledger>(
    heap: &Heap,
    pass: &mut Pass,
    call: Call,
    steps: &mut Steps<L>,
) -> Result<Reply, HeapError>
    requires pass { IsPassOf heap.now pass.old }
    requires question { is_question call ≡ false }
    requires registers { RegistersFit heap.now.geometry.registers call }
    ensures pass { IsPassOf heap.now pass.new }
    ensures done { IfOk result (λ reply. Called heap.now.geometry (known pass.old) call (Done reply) (known pass.new)) }
    ensures fits { IfOk result (AnswersCall call) }
    ensures failed { IfErr result (λ error. RefusedOrFull error
        (Refuses heap.now.geometry (known pass.old) call error × (pass.new ≡ pass.old))
        (λ words. Called heap.now.geometry (known pass.old) call (Full words) (known pass.new))) }
{
    match call {
        Call::Get { reg, field } => {
            let value = heap.get(pass, reg, field, steps)?;
            Ok(Reply::Num(value))
        }
        Call::Put { reg, field, value } => {
            heap.put(pass, reg, field, value, steps)?;
            Ok(Reply::Unit)
        }
        Call::Load { dest, reg, field } => {
            heap.load(pass, dest, reg, field, steps)?;
            Ok(Reply::Unit)
        }
        Call::Store { reg, field, from } => {
            heap.store(pass, reg, field, from, steps)?;
            Ok(Reply::Unit)
        }
        Call::Move { dest, from } => {
            heap.shift(pass, dest, from, steps)?;
            Ok(Reply::Unit)
        }
        Call::Clear { dest } => {
            heap.clear(pass, dest, steps)?;
            Ok(Reply::Unit)
        }
        Call::New { dest, shape } => {
            heap.make(pass, dest, shape, steps)?;
            Ok(Reply::Unit)
        }
        Call::Same { .. } => unreachable!(),
        Call::IsNull { .. } => unreachable!(),
    }
}

/// A call on the shared heap of a pass that has calls left.
fn said_of<L: Ledger>(heap: &Heap, pass: &mut Pass, call: Call, steps: &mut Steps<L>) -> Said
    requires pass { IsPassOf heap.now pass.old }
    requires question { is_question call ≡ false }
    requires registers { RegistersFit heap.now.geometry.registers call }
    requires few { (known pass.old).begun < MOST_CALLS }
    ensures pass { IsPassOf heap.now pass.new }
    ensures tells { Tells (opening_of heap.now.geometry) (known pass.old).seat call (known pass.old).seen (known pass.new).seen result }
    ensures seat { (known pass.new).seat ≡ (known pass.old).seat }
    ensures begun { (known pass.new).begun ≤ (known pass.old).begun + 1 }
{
    match reply(heap, pass, call, steps) {
        Ok(reply) => Said::Done(reply),
        Err(HeapError::Full { words }) => Said::Full(words),
        Err(HeapError::Nil) => Said::Nil,
        Err(HeapError::Field) => Said::Field,
        Err(HeapError::Spent) => unreachable!(),
    }
}

/// Yes or no.
fn yes_or_no(yes: bool) -> Reply
    ensures { result ≡ said yes }
{
    if yes { Reply::Yes } else { Reply::No }
}

impl<'a, L: Ledger, R: Wait, G: Gate> Desk for Shared<'a, L, R, G> {
    ghost geometry = { λ d. d.heap.now.geometry };

    ghost seat = { λ d. (known d.pass).seat };

    ghost seen = { λ d. (known d.pass).seen };

    ghost begun = { λ d. (known d.pass).begun };

    ghost good = { λ d. IsPassOf d.heap.now d.pass };

    ghost same = { λ d e. e.heap.now ≡ d.heap.now };

    fn call(&mut self, call: Call) -> Said {
        let high = self.pass.high();
        self.patient = wait_for_room(self.heap, self.at_work, high, self.patient, call);
        self.gate.before(self.rt, self.pass.seat(), self.calls);
        let said = said_of(self.heap, &mut self.pass, call, &mut self.steps);
        self.gate.after(self.rt, self.pass.seat(), self.calls);
        self.calls = self.calls.saturating_add(1);
        said
    }

    fn ask(&self, question: Call) -> Reply {
        match question {
            Call::IsNull { reg } => yes_or_no(self.heap.is_null(&self.pass, reg)),
            Call::Same { a, b } => yes_or_no(self.heap.same(&self.pass, a, b)),
            _ => unreachable!(),
        }
    }

    ghost same_refl = { λ d. refl };

    ghost same_trans = { λ a b c p q. q ∙ p };
}
