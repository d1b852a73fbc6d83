//! The step of a New: each function does the event of one place.
ghost use Rattle.std.specs.Prelude.{◌≡◌, ◌<◌, false};
ghost use Rattle.hk_words.specs.Geometry.{tasks, numbers, list_length};
ghost use Rattle.hk_words.specs.Layout.{w0_words, w0_objects};
ghost use Rattle.hk_words.specs.declared.call.Call.TheVariants.{New};
ghost use Rattle.hk_core.specs.Event.{fired_if, learnt};
ghost use Rattle.hk_core.specs.State.{flight_of};
ghost use Rattle.hk_core.specs.Step as table;
ghost use Rattle.hk_core.specs.AtCall.{next_in, answer_in, FitsIn, FiresIn, FindsIn, passed, Passes, to_place, loads_entry};
ghost use Rattle.hk_core.specs.declared.outcome.Step.TheVariants.{Going};

use crate::{Core, Event, Flight, Outcome, Step};
use hk_words::{Reply, Shape, pack_header, pack_reference, raise_by, w0_objects, w0_words};

impl Core {
    /// Does the next place of a New.
    #[tactic(auto, unfolding(crate::specs::Step::event_at, crate::specs::Step::took_at, crate::specs::Step::new_event, crate::specs::Step::new_took, crate::specs::Step::load_w0, crate::specs::Step::raise, crate::specs::Step::write_register, crate::specs::NewRows::asked_row, crate::specs::NewRows::asked_word, crate::specs::State::flight_of, crate::specs::Event::fired_if, crate::specs::Event::learnt))]
    pub(crate) fn new_step(&mut self, seat: u8, dest: u8, shape: Shape) -> Step
        requires seat { seat < tasks self.old.geometry }
        requires own { (flight_of self.old.flights seat).seat < tasks self.old.geometry }
        requires fits { FitsIn self.old seat (New dest shape) }
        requires fires { FiresIn self.old seat (New dest shape) }
        requires finds { FindsIn self.old seat (New dest shape) }
        ensures next { self.new ≡ next_in self.old seat (New dest shape) }
        ensures step { result ≡ answer_in self.old seat (New dest shape) }
    {
        let flight = &self.flights[seat as usize];
        match flight.place {
            1 => {
                let word = self.ask();
                let g = self.geometry;
                let flight = &mut self.flights[seat as usize];
                flight.word = word;
                flight.full = Flight::full_to(&g, flight.seat, shape, word);
                flight.place = 2;
                Step::Going
            },
            2 if flight.full => self.move_on(seat, 3),
            2 => self.enter_frame(seat, 3),
            3 if flight.full => self.move_on(seat, 4),
            3 => {
                let g = self.geometry;
                let word = self.fire(Event::Add(g.w0_at(), raise_by(shape.words())));
                let flight = &mut self.flights[seat as usize];
                flight.word = word;
                flight.full = Flight::full_to_all(&g, shape, word);
                flight.raised = true;
                flight.place = 4;
                Step::Going
            },
            4 => {
                let number = self.take_number(seat);
                let flight = &mut self.flights[seat as usize];
                flight.number = number as u32;
                flight.place = 5;
                Step::Going
            },
            5 if flight.full => self.move_on(seat, 6),
            5 => self.write_header(seat, 6),
            6 if flight.full => self.move_on(seat, 7),
            6 => {
                let reference = pack_reference(flight.number, shape);
                let register = self.register_at(flight.seat, dest);
                self.fire(Event::Write(register, reference));
                self.move_on(seat, 7)
            },
            7 if flight.full && !flight.raised => {
                let words = u64::from(w0_words(flight.word));
                self.end(seat, Outcome::Full { words })
            },
            7 if flight.full => {
                let words = u64::from(w0_words(flight.word));
                self.end_framed(seat, Outcome::Full { words })
            },
            7 => self.end_framed(seat, Outcome::Done(Reply::Unit)),
            _ => Step::Going,
        }
    }

    /// Loads the list entry that the raise of W0 gave to the seat's call, unless the call is full. The number in it, and 0 where
    /// the call is full.
    #[tactic(auto, unfolding(crate::specs::Step::load_entry, crate::specs::State::flight_of, crate::specs::Event::fired_if, crate::specs::Event::learnt))]
    fn take_number(&mut self, seat: u8) -> u64
        requires seat { seat < tasks self.old.geometry }
        requires entry { (flight_of self.old.flights seat).full ≡ false → w0_objects (flight_of self.old.flights seat).word < list_length self.old.geometry }
        requires fires { Passes self.old seat loads_entry }
        ensures row { self.new ≡ record self.old { row = fired_if self.old.row (loads_entry self.old.geometry (flight_of self.old.flights seat)) } }
        ensures number { result ≡ learnt self.old.row (loads_entry self.old.geometry (flight_of self.old.flights seat)) }
    {
        let flight = &self.flights[seat as usize];
        if flight.full {
            return 0;
        }
        let entry = self.entry_at(flight.side(), w0_objects(flight.word));
        self.fire(Event::Load(entry))
    }

    /// Writes the header of the new object. The call goes on to a place.
    #[tactic(auto, unfolding(crate::specs::Step::write_header, crate::specs::State::flight_of, crate::specs::Event::fired_if))]
    fn write_header(&mut self, seat: u8, place: u8) -> Step
        requires seat { seat < tasks self.old.geometry }
        requires number { (flight_of self.old.flights seat).number < numbers self.old.geometry }
        requires words { w0_words (flight_of self.old.flights seat).word < self.old.geometry.alloc }
        requires fires { Passes self.old seat table.write_header }
        ensures next { self.new ≡ passed self.old seat table.write_header (to_place place) }
        ensures step { result ≡ Going }
    {
        let g = self.geometry;
        let flight = &self.flights[seat as usize];
        let start = g.place_at(flight.side(), g.live() + w0_words(flight.word));
        let header = self.header_at(flight.number);
        self.fire(Event::Write(header, pack_header(0, start, 0)));
        self.move_on(seat, place)
    }
}
