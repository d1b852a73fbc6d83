ghost use Rattle.std.specs.Prelude.{◌≡◌, ◌↔◌, ℕ, ◌<◌, ◌≤◌, [], length, IsTrue, true, false, IfNone, IfOk, MatchResult, slice_index};
ghost use Rattle.hk_words.specs.Geometry.{tasks, numbers};
ghost use Rattle.hk_words.specs.Layout.{w0_words, w0_cycle};
ghost use Rattle.hk_words.specs.Row.{W0, W1, IsRegister, IsEntry, IsPlace, word_of, header_at, mark_at, frame_at, register_at, entry_at, space_at};
ghost use Rattle.hk_words.specs.Calls.{RegistersFit};
ghost use Rattle.hk_words.specs.declared.call.Call.TheVariants.{Same, IsNull};
ghost use Rattle.hk_model.specs.Heap.{opening_of};
ghost use Rattle.hk_model.specs.History.{History, after, is_question};
ghost use Rattle.hk_model.specs.Replies.{reply_of, said};
ghost use Rattle.hk_core.specs.Event.{CanFire, fired, old_of};
ghost use Rattle.hk_core.specs.State.{State, IsSized, opening, flight_of};
ghost use Rattle.hk_core.specs.Step.{next, answer_by, history_after};
ghost use Rattle.hk_core.specs.Begin.{most_calls, register_word, entered_word, copied_word, first_flight, after_begin, refusal};
ghost use Rattle.hk_core.specs.Faults.{FindsField, IsPlainFault};
ghost use Rattle.hk_core.specs.Fits.{CanStep};
ghost use Rattle.hk_core.specs.Lawful.{Lawful, IsLawful};
ghost use Rattle.hk_core.specs.Refused.{EndsFull};
ghost use Rattle.hk_core.specs.declared.outcome.Step.TheVariants.{Ended};
ghost use Rattle.hk_core.specs.declared.outcome.Outcome.TheVariants.{Full};

use crate::opening::{opening_begun, opening_flights, opening_row, opening_spot};
use crate::starting::{flight_by, refusal_by};
use crate::{Event, Fault, Flight, Outcome, Spot, Step};
use hk_model::Memory;
use hk_words::{Call, Geometry, Reply, w0_cycle, w0_words};
use std::alloc::Global;
use std::marker::Model;

/// The machine of the heap: its row of words, the calls in flight, the begun calls of each seat, and where the
/// collector is.
#[derive(Drop)]
pub struct Core {
    pub(crate) geometry: Geometry,
    pub(crate) row: Vec<u64>,
    pub(crate) flights: Vec<Flight>,
    pub(crate) begun: Vec<u32>,
    pub(crate) spot: Spot,
}

impl Model for Core {
    ghost use Rattle.hk_core.specs.State.{State, IsSized};

    ghost Value = { State };

    ghost view = { λ c. record { geometry = c.geometry; row = c.row.items; flights = c.flights.items; begun = c.begun.items; spot = c.spot } };

    ghost invariant = { λ c. IsSized (record { geometry = c.geometry; row = c.row.items; flights = c.flights.items; begun = c.begun.items; spot = c.spot }) };
}

impl Core {
    /// The machine at the start: cycle 1, the board alone in the heap, every seat idle, and the collector at rest. Only
    /// this call takes memory.
    #[tactic(auto, unfolding(crate::specs::State::opening))]
    pub fn open(alloc: Global, geometry: Geometry) -> Result<Core, Memory>
        ensures state { IfOk result (λ core. core ≡ opening geometry) }
        ensures lawful { IfOk result (λ core. Lawful core []) }
    {
        Ok(Core {
            geometry,
            row: opening_row(alloc, &geometry)?,
            flights: opening_flights(alloc, &geometry)?,
            begun: opening_begun(alloc, &geometry)?,
            spot: opening_spot(),
        })
    }

    /// The geometry that the machine was opened with. No call changes it. The row has the words that it says, and there
    /// are as many flights as tasks.
    pub fn geometry(&self) -> Geometry
        ensures geometry { result ≡ self.now.geometry }
        ensures sized { IsSized self.now }
    {
        self.geometry
    }

    /// The number of the cycle.
    pub fn cycle(&self) -> u32
        ensures { result ≡ w0_cycle (word_of self.now.geometry self.now.row W0) }
    {
        w0_cycle(self.row[self.geometry.w0_at() as usize])
    }

    /// The words used for allocation in this cycle.
    pub fn words_used(&self) -> u32
        ensures { result ≡ w0_words (word_of self.now.geometry self.now.row W0) }
    {
        w0_words(self.row[self.geometry.w0_at() as usize])
    }

    /// The words reserved for evacuation in this cycle.
    pub fn reserved(&self) -> u64
        ensures { result ≡ word_of self.now.geometry self.now.row W1 }
    {
        self.row[self.geometry.w1_at() as usize]
    }

    /// Where the collector is.
    pub fn spot(&self) -> Spot
        ensures { result ≡ self.now.spot }
    {
        self.spot
    }

    /// Sets where the collector is. For the collector alone.
    pub fn set_spot(&mut self, spot: Spot)
        ensures { self.new ≡ record self.old { spot = spot } }
    {
        self.spot = spot;
    }

    /// The index of the header of a number.
    pub fn header_at(&self, number: u32) -> u32
        requires { number < numbers self.now.geometry }
        ensures { result ≡ header_at self.now.geometry number }
    {
        self.geometry.header_at(number)
    }

    /// The index of the mark of a number.
    pub fn mark_at(&self, number: u32) -> u32
        requires { number < numbers self.now.geometry }
        ensures { result ≡ mark_at self.now.geometry number }
    {
        self.geometry.mark_at(number)
    }

    /// The index of the frame word of a seat.
    pub fn frame_at(&self, seat: u8) -> u32
        requires { seat < tasks self.now.geometry }
        ensures { result ≡ frame_at self.now.geometry seat }
    {
        self.geometry.frame_at(seat)
    }

    /// The index of a register of a seat.
    pub fn register_at(&self, seat: u8, reg: u8) -> u32
        requires { IsRegister self.now.geometry seat reg }
        ensures { result ≡ register_at self.now.geometry seat reg }
    {
        self.geometry.register_at(seat, reg)
    }

    /// The index of an entry of one of the two lists of free numbers.
    pub fn entry_at(&self, list: u8, entry: u32) -> u32
        requires { IsEntry self.now.geometry list entry }
        ensures { result ≡ entry_at self.now.geometry list entry }
    {
        self.geometry.entry_at(list, entry)
    }

    /// The index of the word at a place of the two spaces.
    pub fn space_at(&self, place: u32) -> u32
        requires { IsPlace self.now.geometry place }
        ensures { result ≡ space_at self.now.geometry place }
    {
        self.geometry.space_at(place)
    }

    /// The reference in a register of a seat, 0 where it is null.
    #[tactic(auto, unfolding(crate::specs::Begin::register_word))]
    pub(crate) fn register(&self, seat: u8, reg: u8) -> u64
        requires { IsRegister self.now.geometry seat reg }
        ensures { result ≡ register_word self.now seat reg }
    {
        self.row[self.geometry.register_at(seat, reg) as usize]
    }

    /// The register of the seat is null. For an idle seat of a lawful machine this is what the plain heap answers.
    pub fn is_null(&self, seat: u8, reg: u8) -> bool
        requires { IsRegister self.now.geometry seat reg }
        ensures word { IsTrue result ↔ (register_word self.now seat reg ≡ 0) }
        ensures plain { (history : History) → Lawful self.now history → (flight_of self.now.flights seat).place ≡ 0
            → reply_of (after (opening_of self.now.geometry) history) seat (IsNull reg) ≡ said result }
    {
        self.register(seat, reg) == 0
    }

    /// Two registers of the seat refer to one object, or are both null. For an idle seat of a lawful machine this is what
    /// the plain heap answers.
    pub fn same(&self, seat: u8, a: u8, b: u8) -> bool
        requires first { IsRegister self.now.geometry seat a }
        requires second { IsRegister self.now.geometry seat b }
        ensures word { IsTrue result ↔ (register_word self.now seat a ≡ register_word self.now seat b) }
        ensures plain { (history : History) → Lawful self.now history → (flight_of self.now.flights seat).place ≡ 0
            → reply_of (after (opening_of self.now.geometry) history) seat (Same a b) ≡ said result }
    {
        self.register(seat, a) == self.register(seat, b)
    }

    /// A word of the row, by its index.
    pub fn word(&self, index: u32) -> u64
        requires { index < length self.now.row }
        ensures { result ≡ slice_index self.now.row index }
    {
        self.row[index as usize]
    }

    /// Does one event, and answers what the word was. It changes that word alone.
    #[tactic(auto, unfolding(crate::specs::Event::fired, crate::specs::Event::old_of))]
    pub fn fire(&mut self, event: Event) -> u64
        requires { CanFire self.old.row event }
        ensures row { self.new ≡ record self.old { row = fired self.old.row event } }
        ensures old { result ≡ old_of self.old.row event }
    {
        let word = event.word() as usize;
        let old = self.row[word];
        self.row[word] = event.after(old);
        old
    }

    /// The flight of a seat.
    #[tactic(auto, unfolding(crate::specs::State::flight_of))]
    pub fn flight(&self, seat: u8) -> Flight
        requires { seat < tasks self.now.geometry }
        ensures { result ≡ flight_of self.now.flights seat }
    {
        self.flights[seat as usize]
    }

    /// Does the next place of the seat's call: its event on the row, and what the flight takes from it.
    #[tactic(auto, unfolding(crate::specs::Step::next, crate::specs::Step::answer_by, crate::specs::Step::event_by, crate::specs::Step::event_of, crate::specs::Step::took_of, crate::specs::Step::step_of, crate::specs::Step::found_by, crate::specs::Step::event_at, crate::specs::Step::took_at, crate::specs::State::flight_of, crate::specs::Event::fired_if, crate::specs::Event::learnt))]
    pub fn advance(&mut self, seat: u8) -> Step
        requires seat { seat < tasks self.old.geometry }
        requires can_step { CanStep self.old seat }
        ensures next { self.new ≡ next self.old seat }
        ensures step { result ≡ answer_by self.old seat }
    {
        match self.flights[seat as usize].call {
            Call::Get { reg, field } => self.get_step(seat, reg, field),
            Call::Put { reg, field, value } => self.put_step(seat, reg, field, value),
            Call::Move { dest, from } => self.move_step(seat, dest, from),
            Call::Clear { dest } => self.clear_step(seat, dest),
            Call::Load { dest, reg, field } => self.load_step(seat, dest, reg, field),
            Call::Store { reg, field, from } => self.store_step(seat, reg, field, from),
            Call::New { dest, shape } => self.new_step(seat, dest, shape),
            Call::Same { .. } | Call::IsNull { .. } if self.place(seat) == 0 => Step::Ended(
                Outcome::Done(Reply::Unit),
            ),
            Call::Same { .. } | Call::IsNull { .. } => Step::Going,
        }
    }

    /// Does the next place of a call in flight, whatever the call. The machine is lawful for each history for which it was,
    /// with the entry of the place at its end where the place is the call's effect. It answers that there was no room exactly
    /// at the last place of a New that found too few words, with the words used that it found.
    pub fn step(&mut self, seat: u8) -> Step
        requires seat { seat < tasks self.old.geometry }
        requires flying { 1 ≤ (flight_of self.old.flights seat).place }
        requires lawful { IsLawful self.old }
        ensures next { self.new ≡ next self.old seat }
        ensures step { result ≡ answer_by self.old seat }
        ensures full { (words : ℕ) → (result ≡ Ended (Full words)) ↔ EndsFull (flight_of self.old.flights seat) words }
        ensures lawful { (history : History) → Lawful self.old history → Lawful self.new (history_after self.old seat history) }
    {
        self.advance(seat)
    }

    /// Begins a call of a seat: it does no event. A call that is refused, for the first of the three reasons that holds,
    /// changes nothing. The machine is lawful for each history for which it was. It is refused as [`Fault::Nil`] or
    /// [`Fault::Field`] where the plain heap answers so, and begun only where it answers neither.
    pub fn begin(&mut self, seat: u8, call: Call) -> Result<(), Fault>
        requires seat { seat < tasks self.old.geometry }
        requires idle { (flight_of self.old.flights seat).place ≡ 0 }
        requires question { is_question call ≡ false }
        requires registers { RegistersFit self.old.geometry.registers call }
        ensures state { self.new ≡ after_begin self.old seat call }
        ensures answer { MatchResult result (λ _. refusal self.old seat call ≡ None) (λ fault. refusal self.old seat call ≡ Some fault) }
        ensures lawful { (history : History) → Lawful self.old history → Lawful self.new history }
        ensures plain { (history : History) → Lawful self.old history
            → let reply = reply_of (after (opening_of self.old.geometry) history) seat call in
            MatchResult result (λ _. FindsField reply) (λ fault. IsPlainFault fault reply) }
    {
        self.start(seat, call)
    }

    /// Puts a call in flight, where it isn't refused.
    #[tactic(auto, unfolding(crate::specs::Begin::after_begin, crate::specs::Begin::accepted))]
    fn start(&mut self, seat: u8, call: Call) -> Result<(), Fault>
        requires seat { seat < tasks self.old.geometry }
        requires idle { (flight_of self.old.flights seat).place ≡ 0 }
        requires question { is_question call ≡ false }
        requires registers { RegistersFit self.old.geometry.registers call }
        ensures state { self.new ≡ after_begin self.old seat call }
        ensures answer { MatchResult result (λ _. refusal self.old seat call ≡ None) (λ fault. refusal self.old seat call ≡ Some fault) }
    {
        if let Some(fault) = self.refusal(seat, &call) {
            return Err(fault);
        }
        self.flights[seat as usize] = self.first_flight(seat, call);
        let begun = self.begun[seat as usize];
        self.begun[seat as usize] = begun + 1;
        Ok(())
    }

    /// The first reason why a call isn't begun.
    #[tactic(auto, unfolding(crate::specs::Begin::refusal))]
    fn refusal(&self, seat: u8, call: &Call) -> Option<Fault>
        requires seat { seat < tasks self.now.geometry }
        requires registers { RegistersFit self.now.geometry.registers call.now }
        ensures refusal { result ≡ refusal self.now seat call.now }
        ensures room { IfNone result (slice_index self.now.begun seat < most_calls) }
    {
        refusal_by(
            self.begun[seat as usize],
            call,
            self.entered_word(seat, call),
        )
    }

    /// The flight of a call that begins: it has read nothing but registers.
    #[tactic(auto, unfolding(crate::specs::Begin::first_flight))]
    fn first_flight(&self, seat: u8, call: Call) -> Flight
        requires seat { seat < tasks self.now.geometry }
        requires registers { RegistersFit self.now.geometry.registers call }
        ensures { result ≡ first_flight self.now seat call }
    {
        let entered = self.entered_word(seat, &call);
        flight_by(seat, call, entered, self.copied_word(seat, &call))
    }

    /// The reference in the register that a call enters, and 0 where it enters none.
    #[tactic(auto, unfolding(crate::specs::Begin::entered_word))]
    fn entered_word(&self, seat: u8, call: &Call) -> u64
        requires seat { seat < tasks self.now.geometry }
        requires registers { RegistersFit self.now.geometry.registers call.now }
        ensures { result ≡ entered_word self.now seat call.now }
    {
        match *call {
            Call::Get { reg, .. }
            | Call::Put { reg, .. }
            | Call::Load { reg, .. }
            | Call::Store { reg, .. } => { self.register(seat, reg) }
            Call::Move { .. }
            | Call::Clear { .. }
            | Call::New { .. }
            | Call::Same { .. }
            | Call::IsNull { .. } => 0,
        }
    }

    /// The reference in the register that a call copies from, and 0 where it copies from none.
    #[tactic(auto, unfolding(crate::specs::Begin::copied_word))]
    fn copied_word(&self, seat: u8, call: &Call) -> u64
        requires seat { seat < tasks self.now.geometry }
        requires registers { RegistersFit self.now.geometry.registers call.now }
        ensures { result ≡ copied_word self.now seat call.now }
    {
        match *call {
            Call::Store { from, .. } | Call::Move { from, .. } => self.register(seat, from),
            Call::Get { .. }
            | Call::Put { .. }
            | Call::Load { .. }
            | Call::Clear { .. }
            | Call::New { .. }
            | Call::Same { .. }
            | Call::IsNull { .. } => 0,
        }
    }
}
