//! Calls in one piece: each is begun and done to its last place, with nothing between. It leaves exactly the state, and
//! answers exactly what, its begin and its steps would.
ghost use Rattle.std.specs.Prelude.{◌≡◌, ℕ, ◌<◌, Some, None, IfNone, MatchResult, slice_index};
ghost use Rattle.hk_words.specs.Geometry.{tasks};
ghost use Rattle.hk_words.specs.Row.{IsRegister, register_at};
ghost use Rattle.hk_words.specs.Calls.{RegistersFit};
ghost use Rattle.hk_words.specs.declared.call.Call.TheVariants.{Get, Put, Move, Clear, New};
ghost use Rattle.hk_words.specs.declared.call.Reply.TheVariants.{Num, Unit};
ghost use Rattle.hk_words.specs.declared.shape.Shape.{Shape};
ghost use Rattle.hk_model.specs.History.{History};
ghost use Rattle.hk_core.specs.State.{flight_of};
ghost use Rattle.hk_core.specs.Begin.{refusal, most_calls};
ghost use Rattle.hk_core.specs.Lawful.{Lawful, IsLawful};
ghost use Rattle.hk_core.specs.Whole.{whole, whole_history, EndsAs};
ghost use Rattle.hk_core.specs.Event.{CanFire};
ghost use Rattle.hk_core.specs.Passing.{closed};
ghost use Rattle.hk_core.specs.WholeRows.{GetFits, get_row, number_read, PutFits, put_row, MoveFits, move_row, clear_row};
ghost use Rattle.hk_core.specs.declared.event.Event.TheVariants.{Write};
ghost use Rattle.hk_core.specs.declared.outcome.Outcome.TheVariants.{Done};

use crate::{Core, Event, Fault, Flight, MAX_CALLS};
use hk_words::{ENTER, LEAVE, header_place, reference_number, reference_nums, reference_refs};

impl Core {
    /// A Get in one piece: the number in a field of the object that a register names.
    pub fn get(&mut self, seat: u8, reg: u8, field: u8) -> Result<u64, Fault>
        requires seat { seat < tasks self.old.geometry }
        requires idle { (flight_of self.old.flights seat).place ≡ 0 }
        requires registers { RegistersFit self.old.geometry.registers (Get reg field) }
        requires lawful { IsLawful self.old }
        ensures state { self.new ≡ whole self.old seat (Get reg field) }
        ensures answer { MatchResult result (λ number. EndsAs self.old seat (Get reg field) (Done (Num number))) (λ fault. refusal self.old seat (Get reg field) ≡ Some fault) }
        ensures lawful { (history : History) → Lawful self.old history → Lawful self.new (whole_history self.old seat (Get reg field) history) }
    {
        if let Some(fault) = self.number_refusal(seat, reg, field) {
            return Err(fault);
        }
        let entered = self.register(seat, reg);
        let number = self.get_through(entered, field);
        self.close(seat);
        Ok(number)
    }

    /// A Put in one piece: writes a number field of the object that a register names.
    pub fn put(&mut self, seat: u8, reg: u8, field: u8, value: u64) -> Result<(), Fault>
        requires seat { seat < tasks self.old.geometry }
        requires idle { (flight_of self.old.flights seat).place ≡ 0 }
        requires registers { RegistersFit self.old.geometry.registers (Put reg field value) }
        requires lawful { IsLawful self.old }
        ensures state { self.new ≡ whole self.old seat (Put reg field value) }
        ensures answer { MatchResult result (λ _. EndsAs self.old seat (Put reg field value) (Done Unit)) (λ fault. refusal self.old seat (Put reg field value) ≡ Some fault) }
        ensures lawful { (history : History) → Lawful self.old history → Lawful self.new (whole_history self.old seat (Put reg field value) history) }
    {
        if let Some(fault) = self.number_refusal(seat, reg, field) {
            return Err(fault);
        }
        let entered = self.register(seat, reg);
        self.put_through(entered, field, value);
        self.close(seat);
        Ok(())
    }

    /// A Move in one piece: copies a register into another.
    pub fn shift(&mut self, seat: u8, dest: u8, from: u8) -> Result<(), Fault>
        requires seat { seat < tasks self.old.geometry }
        requires idle { (flight_of self.old.flights seat).place ≡ 0 }
        requires registers { RegistersFit self.old.geometry.registers (Move dest from) }
        requires lawful { IsLawful self.old }
        ensures state { self.new ≡ whole self.old seat (Move dest from) }
        ensures answer { MatchResult result (λ _. EndsAs self.old seat (Move dest from) (Done Unit)) (λ fault. refusal self.old seat (Move dest from) ≡ Some fault) }
        ensures lawful { (history : History) → Lawful self.old history → Lawful self.new (whole_history self.old seat (Move dest from) history) }
    {
        if let Some(fault) = self.spent_refusal(seat) {
            return Err(fault);
        }
        let item = self.register(seat, from);
        self.shift_through(seat, dest, item);
        self.close(seat);
        Ok(())
    }

    /// A Clear in one piece: sets a register to null.
    pub fn clear(&mut self, seat: u8, dest: u8) -> Result<(), Fault>
        requires seat { seat < tasks self.old.geometry }
        requires idle { (flight_of self.old.flights seat).place ≡ 0 }
        requires registers { RegistersFit self.old.geometry.registers (Clear dest) }
        requires lawful { IsLawful self.old }
        ensures state { self.new ≡ whole self.old seat (Clear dest) }
        ensures answer { MatchResult result (λ _. EndsAs self.old seat (Clear dest) (Done Unit)) (λ fault. refusal self.old seat (Clear dest) ≡ Some fault) }
        ensures lawful { (history : History) → Lawful self.old history → Lawful self.new (whole_history self.old seat (Clear dest) history) }
    {
        if let Some(fault) = self.spent_refusal(seat) {
            return Err(fault);
        }
        self.clear_through(seat, dest);
        self.close(seat);
        Ok(())
    }

    /// The first reason why a Get, or a Put, isn't begun.
    #[tactic(auto, unfolding(crate::specs::Begin::refusal, crate::specs::Begin::entered_word))]
    fn number_refusal(&self, seat: u8, reg: u8, field: u8) -> Option<Fault>
        requires { IsRegister self.now.geometry seat reg }
        ensures get { result ≡ refusal self.now seat (Get reg field) }
        ensures put { (value : ℕ) → result ≡ refusal self.now seat (Put reg field value) }
        ensures room { IfNone result (slice_index self.now.begun seat < most_calls) }
    {
        let entered = self.register(seat, reg);
        if self.begun[seat as usize] >= MAX_CALLS {
            Some(Fault::Spent)
        } else if entered == 0 {
            Some(Fault::Nil)
        } else if field >= reference_nums(entered) {
            Some(Fault::Field)
        } else {
            None
        }
    }

    /// The reason why a call that goes through no object isn't begun.
    #[tactic(auto, unfolding(crate::specs::Begin::refusal, crate::specs::Begin::entered_word))]
    pub(crate) fn spent_refusal(&self, seat: u8) -> Option<Fault>
        requires { seat < tasks self.now.geometry }
        ensures shift { (dest from : ℕ) → result ≡ refusal self.now seat (Move dest from) }
        ensures clear { (dest : ℕ) → result ≡ refusal self.now seat (Clear dest) }
        ensures make { (dest : ℕ) (shape : Shape) → result ≡ refusal self.now seat (New dest shape) }
        ensures room { IfNone result (slice_index self.now.begun seat < most_calls) }
    {
        if self.begun[seat as usize] >= MAX_CALLS {
            Some(Fault::Spent)
        } else {
            None
        }
    }

    /// The seat has begun one more call, and is idle.
    #[tactic(auto, unfolding(crate::specs::Passing::closed))]
    pub(crate) fn close(&mut self, seat: u8)
        requires seat { seat < tasks self.old.geometry }
        requires room { slice_index self.old.begun seat < most_calls }
        ensures { self.new ≡ closed self.old seat }
    {
        self.flights[seat as usize] = Flight::idle(seat);
        let begun = self.begun[seat as usize];
        self.begun[seat as usize] = begun + 1;
    }

    /// The places of a Get through a reference. The number that was read.
    #[tactic(auto, unfolding(crate::specs::WholeRows::inside_row, crate::specs::WholeRows::number_place, crate::specs::WholeRows::read_row, crate::specs::WholeRows::number_read, crate::specs::WholeRows::get_row))]
    fn get_through(&mut self, entered: u64, field: u8) -> u64
        requires { GetFits self.old.geometry self.old.row entered field }
        ensures row { self.new ≡ record self.old { row = get_row self.old.geometry self.old.row entered field } }
        ensures number { result ≡ number_read self.old.geometry self.old.row entered field }
    {
        let head = self.header_at(reference_number(entered));
        let at = header_place(self.fire(Event::Add(head, ENTER)));
        let place = at + 1 + u32::from(reference_refs(entered)) + u32::from(field);
        let cell = self.space_at(place);
        let number = self.fire(Event::Load(cell));
        self.fire(Event::Sub(head, LEAVE));
        number
    }

    /// The places of a Put through a reference.
    #[tactic(auto, unfolding(crate::specs::WholeRows::inside_row, crate::specs::WholeRows::number_place, crate::specs::WholeRows::written_row, crate::specs::WholeRows::put_row))]
    fn put_through(&mut self, entered: u64, field: u8, value: u64)
        requires { PutFits self.old.geometry self.old.row entered field value }
        ensures { self.new ≡ record self.old { row = put_row self.old.geometry self.old.row entered field value } }
    {
        let head = self.header_at(reference_number(entered));
        let at = header_place(self.fire(Event::Add(head, ENTER)));
        let place = at + 1 + u32::from(reference_refs(entered)) + u32::from(field);
        let cell = self.space_at(place);
        self.fire(Event::Write(cell, value));
        self.fire(Event::Sub(head, LEAVE));
    }

    /// The places of a Move of a reference.
    #[tactic(auto, unfolding(crate::specs::WholeRows::framed_row, crate::specs::WholeRows::moved_row, crate::specs::WholeRows::move_row))]
    fn shift_through(&mut self, seat: u8, dest: u8, item: u64)
        requires dest { IsRegister self.old.geometry seat dest }
        requires fits { MoveFits self.old.geometry self.old.row seat dest item }
        ensures { self.new ≡ record self.old { row = move_row self.old.geometry self.old.row seat dest item } }
    {
        let frame = self.frame_at(seat);
        let register = self.register_at(seat, dest);
        self.fire(Event::Add(frame, ENTER));
        self.fire(Event::Write(register, item));
        self.fire(Event::Sub(frame, LEAVE));
    }

    /// The place of a Clear.
    #[tactic(auto, unfolding(crate::specs::WholeRows::clear_row))]
    fn clear_through(&mut self, seat: u8, dest: u8)
        requires dest { IsRegister self.old.geometry seat dest }
        requires fits { CanFire self.old.row (Write (register_at self.old.geometry seat dest) 0) }
        ensures { self.new ≡ record self.old { row = clear_row self.old.geometry self.old.row seat dest } }
    {
        let register = self.register_at(seat, dest);
        self.fire(Event::Write(register, 0));
    }
}
