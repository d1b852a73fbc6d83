//! The step of a call that goes through one object, or through none: each function does the event of one place.
ghost use Rattle.std.specs.Prelude.{◌≡◌, ◌<◌};
ghost use Rattle.hk_words.specs.Geometry.{tasks};
ghost use Rattle.hk_words.specs.Layout.{header_place};
ghost use Rattle.hk_words.specs.declared.call.Call.TheVariants.{Get, Put, Move, Clear};
ghost use Rattle.hk_core.specs.State.{flight_of};
ghost use Rattle.hk_core.specs.Step as table;
ghost use Rattle.hk_core.specs.Fits.{NamesNumber};
ghost use Rattle.hk_core.specs.AtCall.{next_in, answer_in, FitsIn, FiresIn, passed, Passes, inside, to_place, to_idle, writes_item, moved_on, ended};
ghost use Rattle.hk_core.specs.declared.outcome.Step.TheVariants.{Going, Ended};

use crate::{Core, Event, Flight, Outcome, Step};
use hk_words::{ENTER, LEAVE, Reply, header_place, reference_number};

impl Core {
    /// Does the next place of a Get.
    #[tactic(auto, unfolding(crate::specs::Step::event_at, crate::specs::Step::took_at, crate::specs::Step::get_event, crate::specs::Step::get_took, crate::specs::Step::read_cell, crate::specs::State::flight_of, crate::specs::Event::fired_if, crate::specs::Event::learnt))]
    pub(crate) fn get_step(&mut self, seat: u8, reg: u8, field: u8) -> Step
        requires seat { seat < tasks self.old.geometry }
        requires fits { FitsIn self.old seat (Get reg field) }
        requires fires { FiresIn self.old seat (Get reg field) }
        ensures next { self.new ≡ next_in self.old seat (Get reg field) }
        ensures step { result ≡ answer_in self.old seat (Get reg field) }
    {
        match self.place(seat) {
            1 => self.enter_object(seat, 2),
            2 => {
                let cell = self.space_at(self.flights[seat as usize].number_cell(field));
                let number = self.fire(Event::Load(cell));
                let flight = &mut self.flights[seat as usize];
                flight.item = number;
                flight.place = 3;
                Step::Going
            },
            3 => {
                let number = self.flights[seat as usize].item;
                self.end_inside(seat, Outcome::Done(Reply::Num(number)))
            },
            _ => Step::Going,
        }
    }

    /// Does the next place of a Put.
    #[tactic(auto, unfolding(crate::specs::Step::event_at, crate::specs::Step::took_at, crate::specs::Step::put_event, crate::specs::Step::put_took, crate::specs::Step::write_cell, crate::specs::State::flight_of, crate::specs::Event::fired_if, crate::specs::Event::learnt))]
    pub(crate) fn put_step(&mut self, seat: u8, reg: u8, field: u8, value: u64) -> Step
        requires seat { seat < tasks self.old.geometry }
        requires fits { FitsIn self.old seat (Put reg field value) }
        requires fires { FiresIn self.old seat (Put reg field value) }
        ensures next { self.new ≡ next_in self.old seat (Put reg field value) }
        ensures step { result ≡ answer_in self.old seat (Put reg field value) }
    {
        match self.place(seat) {
            1 => self.enter_object(seat, 2),
            2 => {
                let cell = self.space_at(self.flights[seat as usize].number_cell(field));
                self.fire(Event::Write(cell, value));
                self.move_on(seat, 3)
            },
            3 => self.end_inside(seat, Outcome::Done(Reply::Unit)),
            _ => Step::Going,
        }
    }

    /// Does the next place of a Move.
    #[tactic(auto, unfolding(crate::specs::Step::event_at, crate::specs::Step::took_at, crate::specs::Step::move_event, crate::specs::Step::move_took, crate::specs::State::flight_of, crate::specs::Event::fired_if, crate::specs::Event::learnt))]
    pub(crate) fn move_step(&mut self, seat: u8, dest: u8, from: u8) -> Step
        requires seat { seat < tasks self.old.geometry }
        requires own { (flight_of self.old.flights seat).seat < tasks self.old.geometry }
        requires fits { FitsIn self.old seat (Move dest from) }
        requires fires { FiresIn self.old seat (Move dest from) }
        ensures next { self.new ≡ next_in self.old seat (Move dest from) }
        ensures step { result ≡ answer_in self.old seat (Move dest from) }
    {
        match self.place(seat) {
            1 => self.enter_frame(seat, 2),
            2 => self.write_item(seat, dest, 3),
            3 => self.end_framed(seat, Outcome::Done(Reply::Unit)),
            _ => Step::Going,
        }
    }

    /// Does the next place of a Clear.
    #[tactic(auto, unfolding(crate::specs::Step::event_at, crate::specs::Step::took_at, crate::specs::Step::clear_event, crate::specs::Step::clear_took, crate::specs::Step::write_register, crate::specs::State::flight_of, crate::specs::Event::fired_if, crate::specs::Event::learnt))]
    pub(crate) fn clear_step(&mut self, seat: u8, dest: u8) -> Step
        requires seat { seat < tasks self.old.geometry }
        requires own { (flight_of self.old.flights seat).seat < tasks self.old.geometry }
        requires fits { FitsIn self.old seat (Clear dest) }
        requires fires { FiresIn self.old seat (Clear dest) }
        ensures next { self.new ≡ next_in self.old seat (Clear dest) }
        ensures step { result ≡ answer_in self.old seat (Clear dest) }
    {
        match self.place(seat) {
            1 => {
                let register = self.register_at(self.flights[seat as usize].seat, dest);
                self.fire(Event::Write(register, 0));
                self.end(seat, Outcome::Done(Reply::Unit))
            },
            _ => Step::Going,
        }
    }

    /// Enters the object of the seat's call, which goes on to a place inside it.
    #[tactic(auto, unfolding(crate::specs::Step::enter_object, crate::specs::State::flight_of, crate::specs::Event::fired_if, crate::specs::Event::learnt))]
    pub(crate) fn enter_object(&mut self, seat: u8, place: u8) -> Step
        requires seat { seat < tasks self.old.geometry }
        requires number { NamesNumber self.old.geometry (flight_of self.old.flights seat).entered }
        requires fires { Passes self.old seat table.enter_object }
        ensures next { self.new ≡ passed self.old seat table.enter_object (inside place) }
        ensures step { result ≡ Going }
    {
        let head = self.header_at(reference_number(self.flights[seat as usize].entered));
        let header = self.fire(Event::Add(head, ENTER));
        let flight = &mut self.flights[seat as usize];
        flight.at = header_place(header);
        flight.place = place;
        Step::Going
    }

    /// Leaves the object of the seat's call, which goes on to a place.
    #[tactic(auto, unfolding(crate::specs::Step::leave_object, crate::specs::State::flight_of, crate::specs::Event::fired_if))]
    pub(crate) fn leave_object(&mut self, seat: u8, place: u8) -> Step
        requires seat { seat < tasks self.old.geometry }
        requires number { NamesNumber self.old.geometry (flight_of self.old.flights seat).entered }
        requires fires { Passes self.old seat table.leave_object }
        ensures next { self.new ≡ passed self.old seat table.leave_object (to_place place) }
        ensures step { result ≡ Going }
    {
        let head = self.header_at(reference_number(self.flights[seat as usize].entered));
        self.fire(Event::Sub(head, LEAVE));
        self.move_on(seat, place)
    }

    /// Leaves the object of the seat's call, which ends so.
    #[tactic(auto, unfolding(crate::specs::Step::leave_object, crate::specs::State::flight_of, crate::specs::Event::fired_if))]
    pub(crate) fn end_inside(&mut self, seat: u8, outcome: Outcome) -> Step
        requires seat { seat < tasks self.old.geometry }
        requires number { NamesNumber self.old.geometry (flight_of self.old.flights seat).entered }
        requires fires { Passes self.old seat table.leave_object }
        ensures next { self.new ≡ passed self.old seat table.leave_object to_idle }
        ensures step { result ≡ Ended outcome }
    {
        let head = self.header_at(reference_number(self.flights[seat as usize].entered));
        self.fire(Event::Sub(head, LEAVE));
        self.end(seat, outcome)
    }

    /// Enters the frame of the seat's call, which goes on to a place.
    #[tactic(auto, unfolding(crate::specs::Step::enter_frame, crate::specs::State::flight_of, crate::specs::Event::fired_if))]
    pub(crate) fn enter_frame(&mut self, seat: u8, place: u8) -> Step
        requires seat { seat < tasks self.old.geometry }
        requires own { (flight_of self.old.flights seat).seat < tasks self.old.geometry }
        requires fires { Passes self.old seat table.enter_frame }
        ensures next { self.new ≡ passed self.old seat table.enter_frame (to_place place) }
        ensures step { result ≡ Going }
    {
        let frame = self.frame_at(self.flights[seat as usize].seat);
        self.fire(Event::Add(frame, ENTER));
        self.move_on(seat, place)
    }

    /// Leaves the frame of the seat's call, which ends so.
    #[tactic(auto, unfolding(crate::specs::Step::leave_frame, crate::specs::State::flight_of, crate::specs::Event::fired_if))]
    pub(crate) fn end_framed(&mut self, seat: u8, outcome: Outcome) -> Step
        requires seat { seat < tasks self.old.geometry }
        requires own { (flight_of self.old.flights seat).seat < tasks self.old.geometry }
        requires fires { Passes self.old seat table.leave_frame }
        ensures next { self.new ≡ passed self.old seat table.leave_frame to_idle }
        ensures step { result ≡ Ended outcome }
    {
        let frame = self.frame_at(self.flights[seat as usize].seat);
        self.fire(Event::Sub(frame, LEAVE));
        self.end(seat, outcome)
    }

    /// Writes the reference that the seat's call holds to a register. The call goes on to a place.
    #[tactic(auto, unfolding(crate::specs::Step::write_register, crate::specs::State::flight_of, crate::specs::Event::fired_if))]
    pub(crate) fn write_item(&mut self, seat: u8, dest: u8, place: u8) -> Step
        requires seat { seat < tasks self.old.geometry }
        requires own { (flight_of self.old.flights seat).seat < tasks self.old.geometry }
        requires dest { dest < self.old.geometry.registers }
        requires fires { Passes self.old seat (writes_item dest) }
        ensures next { self.new ≡ passed self.old seat (writes_item dest) (to_place place) }
        ensures step { result ≡ Going }
    {
        let flight = &self.flights[seat as usize];
        let item = flight.item;
        let register = self.register_at(flight.seat, dest);
        self.fire(Event::Write(register, item));
        self.move_on(seat, place)
    }

    /// The next place of the seat's call.
    #[tactic(auto, unfolding(crate::specs::State::flight_of))]
    pub(crate) fn place(&self, seat: u8) -> u8
        requires { seat < tasks self.now.geometry }
        ensures { result ≡ (flight_of self.now.flights seat).place }
    {
        self.flights[seat as usize].place
    }

    /// The seat's call goes on to a place.
    #[tactic(auto, unfolding(crate::specs::State::flight_of))]
    pub(crate) fn move_on(&mut self, seat: u8, place: u8) -> Step
        requires { seat < tasks self.old.geometry }
        ensures next { self.new ≡ moved_on self.old seat place }
        ensures step { result ≡ Going }
    {
        self.flights[seat as usize].place = place;
        Step::Going
    }

    /// The seat's call ends: its flight is idle.
    #[tactic(auto, unfolding(crate::specs::State::flight_of))]
    pub(crate) fn end(&mut self, seat: u8, outcome: Outcome) -> Step
        requires { seat < tasks self.old.geometry }
        ensures next { self.new ≡ ended self.old seat }
        ensures step { result ≡ Ended outcome }
    {
        let flight = &mut self.flights[seat as usize];
        *flight = Flight::idle(flight.seat);
        Step::Ended(outcome)
    }
}
