//! A New in one piece.
ghost use Rattle.std.specs.Prelude.{◌≡◌, ◌<◌, Some, MatchResult};
ghost use Rattle.hk_words.specs.Geometry.{tasks};
ghost use Rattle.hk_words.specs.Layout.{leaving};
ghost use Rattle.hk_words.specs.Row.{IsRegister, frame_at};
ghost use Rattle.hk_words.specs.Calls.{RegistersFit};
ghost use Rattle.hk_words.specs.declared.call.Call.TheVariants.{New};
ghost use Rattle.hk_model.specs.History.{History};
ghost use Rattle.hk_core.specs.Event.{CanFire};
ghost use Rattle.hk_core.specs.State.{flight_of};
ghost use Rattle.hk_core.specs.Step.{outcome_at};
ghost use Rattle.hk_core.specs.Begin.{refusal};
ghost use Rattle.hk_core.specs.Lawful.{Lawful, IsLawful};
ghost use Rattle.hk_core.specs.Whole.{whole, whole_history, EndsAs};
ghost use Rattle.hk_core.specs.Passing.{begins, passed_by, CanPassBy};
ghost use Rattle.hk_core.specs.NewRows.{asked_row, asked_word, RaiseFits, raised_row, raised_word, shut_row, MadeFits, made_row};
ghost use Rattle.hk_core.specs.declared.event.Event.TheVariants.{Sub};

use crate::{Core, Event, Fault, Flight, Outcome};
use hk_words::{
    ENTER, LEAVE, Reply, Shape, pack_header, pack_reference, raise_by, w0_cycle, w0_objects,
    w0_words,
};

impl Core {
    /// A New in one piece: makes an object, and a register refer to it. It answers that there was no room, with the words
    /// used that it found, where these left too few for the object.
    pub fn make(&mut self, seat: u8, dest: u8, shape: Shape) -> Result<Outcome, Fault>
        requires seat { seat < tasks self.old.geometry }
        requires idle { (flight_of self.old.flights seat).place ≡ 0 }
        requires registers { RegistersFit self.old.geometry.registers (New dest shape) }
        requires lawful { IsLawful self.old }
        ensures state { self.new ≡ whole self.old seat (New dest shape) }
        ensures answer { MatchResult result (λ outcome. EndsAs self.old seat (New dest shape) outcome) (λ fault. refusal self.old seat (New dest shape) ≡ Some fault) }
        ensures lawful { (history : History) → Lawful self.old history → Lawful self.new (whole_history self.old seat (New dest shape) history) }
    {
        if let Some(fault) = self.spent_refusal(seat) {
            return Err(fault);
        }
        let outcome = self.make_through(seat, dest, shape);
        self.close(seat);
        Ok(outcome)
    }

    /// The places of a New.
    fn make_through(&mut self, seat: u8, dest: u8, shape: Shape) -> Outcome
        requires seat { seat < tasks self.old.geometry }
        requires dest { dest < self.old.geometry.registers }
        requires places { CanPassBy 7 self.old.geometry (begins self.old seat (New dest shape)) }
        ensures row { self.new ≡ record self.old { row = (passed_by 7 self.old.geometry (begins self.old seat (New dest shape))).row } }
        ensures outcome { result ≡ outcome_at (passed_by 6 self.old.geometry (begins self.old seat (New dest shape))).flight (New dest shape) }
    {
        let g = self.geometry;
        let found = self.ask();
        if Flight::full_to(&g, seat, shape, found) {
            return Outcome::Full {
                words: u64::from(w0_words(found)),
            };
        }
        let raised = self.raise_through(seat, shape);
        if Flight::full_to_all(&g, shape, raised) {
            self.shut(seat);
            return Outcome::Full {
                words: u64::from(w0_words(raised)),
            };
        }
        self.object_through(seat, dest, shape, raised);
        self.shut(seat);
        Outcome::Done(Reply::Unit)
    }

    /// Loads W0.
    #[tactic(auto, unfolding(crate::specs::NewRows::asked_row, crate::specs::NewRows::asked_word))]
    pub(crate) fn ask(&mut self) -> u64
        ensures row { self.new ≡ record self.old { row = asked_row self.old.geometry self.old.row } }
        ensures word { result ≡ asked_word self.old.geometry self.old.row }
    {
        let w0 = self.geometry.w0_at();
        self.fire(Event::Load(w0))
    }

    /// Enters the frame, and raises W0 by an object of the shape. What W0 was.
    #[tactic(auto, unfolding(crate::specs::NewRows::opened_row, crate::specs::NewRows::raised_row, crate::specs::NewRows::raised_word))]
    fn raise_through(&mut self, seat: u8, shape: Shape) -> u64
        requires seat { seat < tasks self.old.geometry }
        requires fits { RaiseFits self.old.geometry self.old.row seat shape }
        ensures row { self.new ≡ record self.old { row = raised_row self.old.geometry self.old.row seat shape } }
        ensures word { result ≡ raised_word self.old.geometry self.old.row seat shape }
    {
        let frame = self.frame_at(seat);
        let w0 = self.geometry.w0_at();
        self.fire(Event::Add(frame, ENTER));
        self.fire(Event::Add(w0, raise_by(shape.words())))
    }

    /// Leaves the frame.
    #[tactic(auto, unfolding(crate::specs::NewRows::shut_row))]
    fn shut(&mut self, seat: u8)
        requires seat { seat < tasks self.old.geometry }
        requires leaves { CanFire self.old.row (Sub (frame_at self.old.geometry seat) leaving) }
        ensures { self.new ≡ record self.old { row = shut_row self.old.geometry self.old.row seat } }
    {
        let frame = self.frame_at(seat);
        self.fire(Event::Sub(frame, LEAVE));
    }

    /// Takes the number that the raise of W0 gave, and writes the header and the register of its object.
    #[tactic(auto, unfolding(crate::specs::NewRows::given_row, crate::specs::NewRows::given_number, crate::specs::NewRows::headed_row, crate::specs::NewRows::made_row))]
    fn object_through(&mut self, seat: u8, dest: u8, shape: Shape, word: u64)
        requires dest { IsRegister self.old.geometry seat dest }
        requires fits { MadeFits self.old.geometry self.old.row seat dest shape word }
        ensures { self.new ≡ record self.old { row = made_row self.old.geometry self.old.row seat dest shape word } }
    {
        let g = self.geometry;
        let side = (w0_cycle(word) % 2) as u8;
        let entry = self.entry_at(side, w0_objects(word));
        let register = self.register_at(seat, dest);
        let number = self.fire(Event::Load(entry)) as u32;
        let head = self.header_at(number);
        let place = g.place_at(side, g.live() + w0_words(word));
        self.fire(Event::Write(head, pack_header(0, place, 0)));
        self.fire(Event::Write(register, pack_reference(number, shape)));
    }
}
