//! What each place of each call leaves in its flight, and what the step answers.
ghost use Rattle.std.specs.Prelude.{◌≡◌, ◌+◌, ◌-◌, ◌^◌, ◌<◌, ◌≤◌};
ghost use Rattle.hk_words.specs.Shape.{size};
ghost use Rattle.hk_core.specs.Step as table;
ghost use Rattle.hk_core.specs.Step.{took_of, step_of, outcome_at, claims, full_to, full_to_all};
ghost use Rattle.hk_core.specs.Fits.{FindsNumber};

use crate::{Flight, Outcome, Step};
use hk_words::{Call, Geometry, Reply, Shape, header_place, w0_cycle, w0_words};

impl Flight {
    /// Goes on to the next place, where the event of this place found the word `old` (0 after a rest or a write), and
    /// answers what the step did. After the last place the flight is idle.
    #[tactic(auto, unfolding(crate::specs::Step::took_of, crate::specs::Step::took_at))]
    pub fn took(&mut self, g: &Geometry, old: u64) -> Step
        requires { FindsNumber self.old self.old.call old }
        ensures flight { self.new ≡ took_of g.now self.old old }
        ensures step { result ≡ step_of self.old }
    {
        let step = self.answer();
        match self.call {
            Call::Get { .. } => self.get_took(old),
            Call::Put { .. } => self.put_took(old),
            Call::Move { .. } => self.move_took(),
            Call::Clear { .. } => self.clear_took(),
            Call::Load { .. } => self.load_took(old),
            Call::Store { .. } => self.store_took(old),
            Call::New { shape, .. } => self.new_took(g, shape, old),
            Call::Same { .. } | Call::IsNull { .. } => {}
        }
        step
    }

    /// What the step at the flight's place answers: the last place of the call ends it.
    #[tactic(auto, unfolding(crate::specs::Step::step_of))]
    fn answer(&self) -> Step
        ensures { result ≡ step_of self.now }
    {
        if self.place == self.call.places() {
            Step::Ended(self.outcome())
        } else {
            Step::Going
        }
    }

    /// How the call ends.
    fn outcome(&self) -> Outcome
        ensures { result ≡ outcome_at self.now self.now.call }
    {
        match self.call {
            Call::Get { .. } => Outcome::Done(Reply::Num(self.item)),
            Call::New { .. } if self.full => Outcome::Full {
                words: u64::from(w0_words(self.word)),
            },
            _ => Outcome::Done(Reply::Unit),
        }
    }

    #[tactic(auto, unfolding(crate::specs::Step::get_took))]
    fn get_took(&mut self, old: u64)
        ensures { self.new ≡ table.get_took self.old old }
    {
        match self.place {
            1 => {
                self.at = header_place(old);
                self.place = 2;
            },
            2 => {
                self.item = old;
                self.place = 3;
            },
            3 => *self = Flight::idle(self.seat),
            _ => {}
        }
    }

    #[tactic(auto, unfolding(crate::specs::Step::put_took))]
    fn put_took(&mut self, old: u64)
        ensures { self.new ≡ table.put_took self.old old }
    {
        match self.place {
            1 => {
                self.at = header_place(old);
                self.place = 2;
            },
            2 => {
                self.place = 3;
            },
            3 => *self = Flight::idle(self.seat),
            _ => {}
        }
    }

    #[tactic(auto, unfolding(crate::specs::Step::move_took))]
    fn move_took(&mut self)
        ensures { self.new ≡ table.move_took self.old }
    {
        match self.place {
            1 => {
                self.place = 2;
            },
            2 => {
                self.place = 3;
            },
            3 => *self = Flight::idle(self.seat),
            _ => {}
        }
    }

    #[tactic(auto, unfolding(crate::specs::Step::clear_took))]
    fn clear_took(&mut self)
        ensures { self.new ≡ table.clear_took self.old }
    {
        match self.place {
            1 => *self = Flight::idle(self.seat),
            _ => {}
        }
    }

    #[tactic(auto, unfolding(crate::specs::Step::load_took))]
    fn load_took(&mut self, old: u64)
        ensures { self.new ≡ table.load_took self.old old }
    {
        match self.place {
            1 => {
                self.place = 2;
            },
            2 => {
                self.at = header_place(old);
                self.place = 3;
            },
            3 => {
                self.word = old;
                self.place = 4;
            },
            4 => {
                self.item = old;
                self.place = 5;
            },
            5 => {
                self.claimer = self.claims(old);
                self.place = 6;
            },
            6 => {
                self.offset = old;
                self.place = 7;
            },
            7 => {
                self.place = 8;
            },
            8 => {
                self.place = 9;
            },
            9 => {
                self.place = 10;
            },
            10 => *self = Flight::idle(self.seat),
            _ => {}
        }
    }

    #[tactic(auto, unfolding(crate::specs::Step::store_took))]
    fn store_took(&mut self, old: u64)
        ensures { self.new ≡ table.store_took self.old old }
    {
        match self.place {
            1 => {
                self.at = header_place(old);
                self.place = 2;
            },
            2 => {
                self.word = old;
                self.place = 3;
            },
            3 => {
                self.claimer = self.claims(old);
                self.place = 4;
            },
            4 => {
                self.offset = old;
                self.place = 5;
            },
            5 => {
                self.place = 6;
            },
            6 => {
                self.place = 7;
            },
            7 => *self = Flight::idle(self.seat),
            _ => {}
        }
    }

    #[tactic(auto, unfolding(crate::specs::Step::new_took))]
    fn new_took(&mut self, g: &Geometry, shape: Shape, old: u64)
        requires { self.old.place ≡ 4 → old < 2 ^ 32 }
        ensures { self.new ≡ table.new_took g.now self.old shape old }
    {
        match self.place {
            1 => {
                self.word = old;
                self.full = Flight::full_to(g, self.seat, shape, old);
                self.place = 2;
            },
            2 => {
                self.place = 3;
            },
            3 if self.full => {
                self.place = 4;
            },
            3 => {
                self.word = old;
                self.full = Flight::full_to_all(g, shape, old);
                self.raised = true;
                self.place = 4;
            },
            4 => {
                self.number = old as u32;
                self.place = 5;
            },
            5 => {
                self.place = 6;
            },
            6 => {
                self.place = 7;
            },
            7 => *self = Flight::idle(self.seat),
            _ => {}
        }
    }

    /// The call is the claimer: its claim found a mark below its cycle.
    fn claims(&self, old: u64) -> bool
        ensures { result ≡ claims self.now old }
    {
        self.item != 0 && old < u64::from(w0_cycle(self.word))
    }

    /// The words used leave too few for an object of the shape, to this seat: a low one leaves the reserve.
    pub(crate) fn full_to(g: &Geometry, seat: u8, shape: Shape, w0: u64) -> bool
        ensures { result ≡ full_to g.now seat shape w0 }
    {
        let limit = if seat < g.high() {
            g.alloc()
        } else {
            g.alloc() - g.reserve()
        };
        w0_words(w0) + shape.words() > limit
    }

    /// The words used leave too few for an object of the shape, to any seat.
    pub(crate) fn full_to_all(g: &Geometry, shape: Shape, w0: u64) -> bool
        ensures { result ≡ full_to_all g.now shape w0 }
    {
        w0_words(w0) + shape.words() > g.alloc()
    }
}
