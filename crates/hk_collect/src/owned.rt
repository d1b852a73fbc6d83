//! The heap of one owner: the machine with its collector. It is lawful all along, and its type says so.
ghost use Rattle.std.specs.Prelude.{◌≡◌, ◌↔◌, ℕ, ◌<◌, ◌≤◌, [], length, IsTrue, false, IfOk, MatchResult, slice_index, Some, None};
ghost use Rattle.hk_words.specs.Geometry.{tasks};
ghost use Rattle.hk_words.specs.Layout.{w0_words, w0_cycle};
ghost use Rattle.hk_words.specs.Row.{W0, W1, IsRegister, word_of};
ghost use Rattle.hk_words.specs.Calls.{RegistersFit};
ghost use Rattle.hk_words.specs.declared.call.Call.TheVariants.{Get, Put, Load, Store, Move, Clear, New, Same, IsNull};
ghost use Rattle.hk_words.specs.declared.call.Reply.TheVariants.{Num, Unit};
ghost use Rattle.hk_model.specs.Heap.{opening_of};
ghost use Rattle.hk_model.specs.History.{History, after, is_question};
ghost use Rattle.hk_model.specs.Replies.{reply_of, said};
ghost use Rattle.hk_core.specs.State.{State, IsSized, opening, flight_of};
ghost use Rattle.hk_core.specs.Step.{next, answer_by, history_after};
ghost use Rattle.hk_core.specs.Begin.{register_word, after_begin, refusal};
ghost use Rattle.hk_core.specs.Collect.{next_collected, work_by_collector};
ghost use Rattle.hk_core.specs.Lawful.{Lawful, IsLawful};
ghost use Rattle.hk_core.specs.Refused.{EndsFull};
ghost use Rattle.hk_core.specs.declared.outcome.Step.TheVariants.{Ended};
ghost use Rattle.hk_core.specs.declared.outcome.Outcome.TheVariants.{Done, Full};
ghost use Rattle.hk_core.specs.Whole.{whole, whole_history, EndsAs};
ghost use Rattle.hk_collect.specs.Works.{HasCauses};

use crate::collector::step;
use hk_core::{Core, Fault, Flight, Memory, Outcome, Spot, Step, Work};
use hk_words::{Call, Geometry, Shape};
use std::alloc::Global;
use std::marker::Model;

/// The heap of one owner, who gives each step to a task or to the collector. Whatever it does keeps the heap lawful: for some
/// history of calls, each with the reply of the heap that never collects, its words show the heap after them.
#[derive(Drop)]
pub struct OwnedHeap {
    core: Core,
}

impl Model for OwnedHeap {
    ghost use Rattle.hk_core.specs.State.{State};
    ghost use Rattle.hk_core.specs.Lawful.{IsLawful};

    ghost Value = { State };

    ghost view = { λ heap. heap.core };

    ghost invariant = { λ heap. IsLawful heap.core };
}

impl OwnedHeap {
    /// The heap at the start: cycle 1, the board alone, every seat idle, and the collector at rest. It is lawful for the
    /// empty history. Only this call takes memory.
    pub fn open(alloc: Global, geometry: Geometry) -> Result<OwnedHeap, Memory>
        ensures state { IfOk result (λ heap. heap ≡ opening geometry) }
        ensures lawful { IfOk result (λ heap. Lawful heap []) }
    {
        let core = Core::open(alloc, geometry)?;
        Ok(OwnedHeap { core })
    }

    /// The geometry that the heap was opened with. No call changes it.
    pub fn geometry(&self) -> Geometry
        ensures geometry { result ≡ self.now.geometry }
        ensures sized { IsSized self.now }
        ensures lawful { IsLawful self.now }
    {
        self.core.geometry()
    }

    /// Begins a call of a seat: it does no event. A call that is refused, for the first of the three reasons that holds,
    /// changes nothing. The heap is lawful for each history for which it was.
    pub fn begin(&mut self, seat: u8, call: Call) -> Result<(), Fault>
        requires seat { seat < tasks self.old.geometry }
        requires idle { (flight_of self.old.flights seat).place ≡ 0 }
        requires question { is_question call ≡ false }
        requires registers { RegistersFit self.old.geometry.registers call }
        ensures state { self.new ≡ after_begin self.old seat call }
        ensures answer { MatchResult result (λ _. refusal self.old seat call ≡ None) (λ fault. refusal self.old seat call ≡ Some fault) }
        ensures lawful { (history : History) → Lawful self.old history → Lawful self.new history }
    {
        self.core.begin(seat, call)
    }

    /// Does the next place of a call in flight. The heap is lawful for each history for which it was, with the entry of the
    /// place at its end where the place is the call's effect. It answers that there was no room exactly at the last place of
    /// a New that found too few words, with the words used that it found.
    pub fn step(&mut self, seat: u8) -> Step
        requires seat { seat < tasks self.old.geometry }
        requires flying { 1 ≤ (flight_of self.old.flights seat).place }
        ensures next { self.new ≡ next self.old seat }
        ensures step { result ≡ answer_by self.old seat }
        ensures full { (words : ℕ) → (result ≡ Ended (Full words)) ↔ EndsFull (flight_of self.old.flights seat) words }
        ensures lawful { (history : History) → Lawful self.old history → Lawful self.new (history_after self.old seat history) }
    {
        self.core.step(seat)
    }

    /// A Get in one piece: the number in a field of the object that a register names. It leaves and answers
    /// what its begin and its steps, with nothing between them, would.
    pub fn get(&mut self, seat: u8, reg: u8, field: u8) -> Result<u64, Fault>
        requires seat { seat < tasks self.old.geometry }
        requires idle { (flight_of self.old.flights seat).place ≡ 0 }
        requires registers { RegistersFit self.old.geometry.registers (Get reg field) }
        ensures state { self.new ≡ whole self.old seat (Get reg field) }
        ensures answer { MatchResult result (λ number. EndsAs self.old seat (Get reg field) (Done (Num number))) (λ fault. refusal self.old seat (Get reg field) ≡ Some fault) }
        ensures lawful { (history : History) → Lawful self.old history → Lawful self.new (whole_history self.old seat (Get reg field) history) }
    {
        self.core.get(seat, reg, field)
    }

    /// A Put in one piece: writes a number field of the object that a register names. It leaves and answers
    /// what its begin and its steps, with nothing between them, would.
    pub fn put(&mut self, seat: u8, reg: u8, field: u8, value: u64) -> Result<(), Fault>
        requires seat { seat < tasks self.old.geometry }
        requires idle { (flight_of self.old.flights seat).place ≡ 0 }
        requires registers { RegistersFit self.old.geometry.registers (Put reg field value) }
        ensures state { self.new ≡ whole self.old seat (Put reg field value) }
        ensures answer { MatchResult result (λ _. EndsAs self.old seat (Put reg field value) (Done Unit)) (λ fault. refusal self.old seat (Put reg field value) ≡ Some fault) }
        ensures lawful { (history : History) → Lawful self.old history → Lawful self.new (whole_history self.old seat (Put reg field value) history) }
    {
        self.core.put(seat, reg, field, value)
    }

    /// A Load in one piece: copies a reference field of the object that a register names into a register. It leaves and answers
    /// what its begin and its steps, with nothing between them, would.
    pub fn load(&mut self, seat: u8, dest: u8, reg: u8, field: u8) -> Result<(), Fault>
        requires seat { seat < tasks self.old.geometry }
        requires idle { (flight_of self.old.flights seat).place ≡ 0 }
        requires registers { RegistersFit self.old.geometry.registers (Load dest reg field) }
        ensures state { self.new ≡ whole self.old seat (Load dest reg field) }
        ensures answer { MatchResult result (λ _. EndsAs self.old seat (Load dest reg field) (Done Unit)) (λ fault. refusal self.old seat (Load dest reg field) ≡ Some fault) }
        ensures lawful { (history : History) → Lawful self.old history → Lawful self.new (whole_history self.old seat (Load dest reg field) history) }
    {
        self.core.load(seat, dest, reg, field)
    }

    /// A Store in one piece: copies a register into a reference field of the object that a register names. It leaves and answers
    /// what its begin and its steps, with nothing between them, would.
    pub fn store(&mut self, seat: u8, reg: u8, field: u8, from: u8) -> Result<(), Fault>
        requires seat { seat < tasks self.old.geometry }
        requires idle { (flight_of self.old.flights seat).place ≡ 0 }
        requires registers { RegistersFit self.old.geometry.registers (Store reg field from) }
        ensures state { self.new ≡ whole self.old seat (Store reg field from) }
        ensures answer { MatchResult result (λ _. EndsAs self.old seat (Store reg field from) (Done Unit)) (λ fault. refusal self.old seat (Store reg field from) ≡ Some fault) }
        ensures lawful { (history : History) → Lawful self.old history → Lawful self.new (whole_history self.old seat (Store reg field from) history) }
    {
        self.core.store(seat, reg, field, from)
    }

    /// A Move in one piece: copies a register into another. It leaves and answers
    /// what its begin and its steps, with nothing between them, would.
    pub fn shift(&mut self, seat: u8, dest: u8, from: u8) -> Result<(), Fault>
        requires seat { seat < tasks self.old.geometry }
        requires idle { (flight_of self.old.flights seat).place ≡ 0 }
        requires registers { RegistersFit self.old.geometry.registers (Move dest from) }
        ensures state { self.new ≡ whole self.old seat (Move dest from) }
        ensures answer { MatchResult result (λ _. EndsAs self.old seat (Move dest from) (Done Unit)) (λ fault. refusal self.old seat (Move dest from) ≡ Some fault) }
        ensures lawful { (history : History) → Lawful self.old history → Lawful self.new (whole_history self.old seat (Move dest from) history) }
    {
        self.core.shift(seat, dest, from)
    }

    /// A Clear in one piece: sets a register to null. It leaves and answers
    /// what its begin and its steps, with nothing between them, would.
    pub fn clear(&mut self, seat: u8, dest: u8) -> Result<(), Fault>
        requires seat { seat < tasks self.old.geometry }
        requires idle { (flight_of self.old.flights seat).place ≡ 0 }
        requires registers { RegistersFit self.old.geometry.registers (Clear dest) }
        ensures state { self.new ≡ whole self.old seat (Clear dest) }
        ensures answer { MatchResult result (λ _. EndsAs self.old seat (Clear dest) (Done Unit)) (λ fault. refusal self.old seat (Clear dest) ≡ Some fault) }
        ensures lawful { (history : History) → Lawful self.old history → Lawful self.new (whole_history self.old seat (Clear dest) history) }
    {
        self.core.clear(seat, dest)
    }

    /// A New in one piece: makes an object, and a register refer to it, or answers that there was no room. It leaves and answers
    /// what its begin and its steps, with nothing between them, would.
    pub fn make(&mut self, seat: u8, dest: u8, shape: Shape) -> Result<Outcome, Fault>
        requires seat { seat < tasks self.old.geometry }
        requires idle { (flight_of self.old.flights seat).place ≡ 0 }
        requires registers { RegistersFit self.old.geometry.registers (New dest shape) }
        ensures state { self.new ≡ whole self.old seat (New dest shape) }
        ensures answer { MatchResult result (λ outcome. EndsAs self.old seat (New dest shape) outcome) (λ fault. refusal self.old seat (New dest shape) ≡ Some fault) }
        ensures lawful { (history : History) → Lawful self.old history → Lawful self.new (whole_history self.old seat (New dest shape) history) }
    {
        self.core.make(seat, dest, shape)
    }

    /// Does the next event of the collector, and answers what it did. The heap is lawful for each history for which it was:
    /// the collector leaves the history as it is. Each answer comes exactly where its cause is there.
    pub fn collect(&mut self) -> Work
        ensures next { self.new ≡ next_collected self.old }
        ensures work { result ≡ work_by_collector self.old }
        ensures lawful { (history : History) → Lawful self.old history → Lawful self.new history }
        ensures causes { HasCauses self.old result }
    {
        step(&mut self.core)
    }

    /// The register of the seat is null. For an idle seat this is what the heap that never collects answers.
    pub fn is_null(&self, seat: u8, reg: u8) -> bool
        requires { IsRegister self.now.geometry seat reg }
        ensures word { IsTrue result ↔ (register_word self.now seat reg ≡ 0) }
        ensures plain { (history : History) → Lawful self.now history → (flight_of self.now.flights seat).place ≡ 0
            → reply_of (after (opening_of self.now.geometry) history) seat (IsNull reg) ≡ said result }
    {
        self.core.is_null(seat, reg)
    }

    /// Two registers of the seat refer to one object, or are both null. For an idle seat this is what the heap that never
    /// collects answers.
    pub fn same(&self, seat: u8, a: u8, b: u8) -> bool
        requires first { IsRegister self.now.geometry seat a }
        requires second { IsRegister self.now.geometry seat b }
        ensures word { IsTrue result ↔ (register_word self.now seat a ≡ register_word self.now seat b) }
        ensures plain { (history : History) → Lawful self.now history → (flight_of self.now.flights seat).place ≡ 0
            → reply_of (after (opening_of self.now.geometry) history) seat (Same a b) ≡ said result }
    {
        self.core.same(seat, a, b)
    }

    /// The number of the cycle.
    pub fn cycle(&self) -> u32
        ensures { result ≡ w0_cycle (word_of self.now.geometry self.now.row W0) }
    {
        self.core.cycle()
    }

    /// The words used for allocation in this cycle.
    pub fn words_used(&self) -> u32
        ensures { result ≡ w0_words (word_of self.now.geometry self.now.row W0) }
    {
        self.core.words_used()
    }

    /// The words reserved for evacuation in this cycle.
    pub fn reserved(&self) -> u64
        ensures { result ≡ word_of self.now.geometry self.now.row W1 }
    {
        self.core.reserved()
    }

    /// Where the collector is.
    pub fn spot(&self) -> Spot
        ensures { result ≡ self.now.spot }
    {
        self.core.spot()
    }

    /// The flight of a seat: its call in flight, at its next place, or an idle seat at place 0.
    pub fn flight(&self, seat: u8) -> Flight
        requires { seat < tasks self.now.geometry }
        ensures { result ≡ flight_of self.now.flights seat }
    {
        self.core.flight(seat)
    }

    /// A word of the row, by its index.
    pub fn word(&self, index: u32) -> u64
        requires { index < length self.now.row }
        ensures { result ≡ slice_index self.now.row index }
    {
        self.core.word(index)
    }
}
