//! The step of a Load and of a Store: each function does the event of one place.
ghost use Rattle.std.specs.Prelude.{◌≡◌, ◌≢◌, ◌<◌};
ghost use Rattle.hk_words.specs.Geometry.{tasks};
ghost use Rattle.hk_words.specs.declared.call.Call.TheVariants.{Load, Store};
ghost use Rattle.hk_core.specs.Event.{fired_if, learnt};
ghost use Rattle.hk_core.specs.State.{flight_of};
ghost use Rattle.hk_core.specs.Step as table;
ghost use Rattle.hk_core.specs.Step.{claims};
ghost use Rattle.hk_core.specs.Fits.{NamesNumber};
ghost use Rattle.hk_core.specs.AtCall.{next_in, answer_in, FitsIn, FiresIn, passed, Passes, to_place, claiming, reserving};
ghost use Rattle.hk_core.specs.declared.outcome.Step.TheVariants.{Going};

use crate::whole_links::link_at;
use crate::{Core, Event, Outcome, Step, reference_size, reserved_fits};
use hk_words::{Reply, reference_number, w0_cycle};

impl Core {
    /// Does the next place of a Load.
    #[tactic(auto, unfolding(crate::specs::Step::event_at, crate::specs::Step::took_at, crate::specs::Step::load_event, crate::specs::Step::load_took, crate::specs::Step::load_w0, crate::specs::Step::read_cell, crate::specs::NewRows::asked_row, crate::specs::NewRows::asked_word, crate::specs::State::flight_of, crate::specs::Event::fired_if, crate::specs::Event::learnt))]
    pub(crate) fn load_step(&mut self, seat: u8, dest: u8, reg: u8, field: u8) -> Step
        requires seat { seat < tasks self.old.geometry }
        requires own { (flight_of self.old.flights seat).seat < tasks self.old.geometry }
        requires fits { FitsIn self.old seat (Load dest reg field) }
        requires fires { FiresIn self.old seat (Load dest reg field) }
        ensures next { self.new ≡ next_in self.old seat (Load dest reg field) }
        ensures step { result ≡ answer_in self.old seat (Load dest reg field) }
    {
        match self.place(seat) {
            1 => self.enter_frame(seat, 2),
            2 => self.enter_object(seat, 3),
            3 => {
                let word = self.ask();
                let flight = &mut self.flights[seat as usize];
                flight.word = word;
                flight.place = 4;
                Step::Going
            },
            4 => {
                let cell = self.space_at(self.flights[seat as usize].reference_cell(field));
                let item = self.fire(Event::Load(cell));
                let flight = &mut self.flights[seat as usize];
                flight.item = item;
                flight.place = 5;
                Step::Going
            },
            5 => self.claim(seat, 6),
            6 => self.reserve(seat, 7),
            7 => self.link(seat, 8),
            8 => self.write_item(seat, dest, 9),
            9 => self.leave_object(seat, 10),
            10 => self.end_framed(seat, Outcome::Done(Reply::Unit)),
            _ => Step::Going,
        }
    }

    /// Does the next place of a Store.
    #[tactic(auto, unfolding(crate::specs::Step::event_at, crate::specs::Step::took_at, crate::specs::Step::store_event, crate::specs::Step::store_took, crate::specs::Step::write_cell, crate::specs::LinkRows::seen_row, crate::specs::LinkRows::seen_word, crate::specs::State::flight_of, crate::specs::Event::fired_if, crate::specs::Event::learnt))]
    pub(crate) fn store_step(&mut self, seat: u8, reg: u8, field: u8, from: u8) -> Step
        requires seat { seat < tasks self.old.geometry }
        requires fits { FitsIn self.old seat (Store reg field from) }
        requires fires { FiresIn self.old seat (Store reg field from) }
        ensures next { self.new ≡ next_in self.old seat (Store reg field from) }
        ensures step { result ≡ answer_in self.old seat (Store reg field from) }
    {
        match self.place(seat) {
            1 => self.enter_object(seat, 2),
            2 => {
                let item = self.flights[seat as usize].item;
                let word = self.cycle_for(item);
                let flight = &mut self.flights[seat as usize];
                flight.word = word;
                flight.place = 3;
                Step::Going
            },
            3 => self.claim(seat, 4),
            4 => self.reserve(seat, 5),
            5 => self.link(seat, 6),
            6 => {
                let flight = &self.flights[seat as usize];
                let item = flight.item;
                let cell = self.space_at(flight.reference_cell(field));
                self.fire(Event::Write(cell, item));
                self.move_on(seat, 7)
            },
            7 => self.end_inside(seat, Outcome::Done(Reply::Unit)),
            _ => Step::Going,
        }
    }

    /// Claims the object that the seat's call holds, unless it holds null. The call goes on to a place.
    #[tactic(auto, unfolding(crate::specs::State::flight_of))]
    fn claim(&mut self, seat: u8, place: u8) -> Step
        requires seat { seat < tasks self.old.geometry }
        requires number { (flight_of self.old.flights seat).item ≢ 0 → NamesNumber self.old.geometry (flight_of self.old.flights seat).item }
        requires fires { Passes self.old seat table.claim }
        ensures next { self.new ≡ passed self.old seat table.claim (claiming place) }
        ensures step { result ≡ Going }
    {
        let claimer = self.claim_first(seat);
        let flight = &mut self.flights[seat as usize];
        flight.claimer = claimer;
        flight.place = place;
        Step::Going
    }

    /// Claims the object that the seat's call holds, unless it holds null. It is the first to claim it.
    #[tactic(auto, unfolding(crate::specs::Step::claim, crate::specs::State::flight_of, crate::specs::Event::fired_if, crate::specs::Event::learnt))]
    fn claim_first(&mut self, seat: u8) -> bool
        requires seat { seat < tasks self.old.geometry }
        requires number { (flight_of self.old.flights seat).item ≢ 0 → NamesNumber self.old.geometry (flight_of self.old.flights seat).item }
        requires fires { Passes self.old seat table.claim }
        ensures row { self.new ≡ record self.old { row = fired_if self.old.row (table.claim self.old.geometry (flight_of self.old.flights seat)) } }
        ensures first { result ≡ claims (flight_of self.old.flights seat) (learnt self.old.row (table.claim self.old.geometry (flight_of self.old.flights seat))) }
    {
        let flight = &self.flights[seat as usize];
        let item = flight.item;
        if item == 0 {
            return false;
        }
        let cycle = u64::from(w0_cycle(flight.word));
        let word = self.mark_at(reference_number(item));
        let mark = self.fire(Event::Max(word, cycle));
        mark < cycle
    }

    /// Reserves a place for the object that the seat's call holds, where it was the first to claim it. The call goes on to a
    /// place.
    #[tactic(auto, unfolding(crate::specs::State::flight_of))]
    fn reserve(&mut self, seat: u8, place: u8) -> Step
        requires seat { seat < tasks self.old.geometry }
        requires fires { Passes self.old seat table.reserve }
        ensures next { self.new ≡ passed self.old seat table.reserve (reserving place) }
        ensures step { result ≡ Going }
    {
        let offset = self.reserve_offset(seat);
        let flight = &mut self.flights[seat as usize];
        flight.offset = offset;
        flight.place = place;
        Step::Going
    }

    /// Reserves a place for the object that the seat's call holds, where it was the first to claim it. The offset of the place,
    /// and 0 where it wasn't the first.
    #[tactic(auto, unfolding(crate::specs::Step::reserve, crate::specs::State::flight_of, crate::specs::Event::fired_if, crate::specs::Event::learnt))]
    fn reserve_offset(&mut self, seat: u8) -> u64
        requires seat { seat < tasks self.old.geometry }
        requires fires { Passes self.old seat table.reserve }
        ensures row { self.new ≡ record self.old { row = fired_if self.old.row (table.reserve self.old.geometry (flight_of self.old.flights seat)) } }
        ensures offset { result ≡ learnt self.old.row (table.reserve self.old.geometry (flight_of self.old.flights seat)) }
    {
        let flight = &self.flights[seat as usize];
        if !flight.claimer {
            return 0;
        }
        let size = u64::from(reference_size(flight.item));
        let reserved = self.geometry.w1_at();
        self.fire(Event::Add(reserved, size))
    }

    /// Links the object that the seat's call holds, where a place was reserved for it and fits. The call goes on to a place.
    #[tactic(auto, unfolding(crate::specs::Step::link, crate::specs::State::flight_of, crate::specs::Event::fired_if))]
    fn link(&mut self, seat: u8, place: u8) -> Step
        requires seat { seat < tasks self.old.geometry }
        requires fires { Passes self.old seat table.link }
        ensures next { self.new ≡ passed self.old seat table.link (to_place place) }
        ensures step { result ≡ Going }
    {
        let g = self.geometry;
        let flight = &self.flights[seat as usize];
        let item = flight.item;
        let offset = flight.offset;
        if !flight.claimer || !reserved_fits(&g, offset, item) {
            return self.move_on(seat, place);
        }
        let word = link_at(&g, w0_cycle(flight.word), offset as u32);
        self.fire(Event::Write(word, item));
        self.move_on(seat, place)
    }
}
