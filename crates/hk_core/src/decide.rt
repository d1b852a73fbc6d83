//! The event of each place of each call.
ghost use Rattle.std.specs.Prelude.{◌≡◌, ◌≢◌, ℕ, ◌+◌, ◌*◌, ◌%◌, ◌^◌, ◌<◌, ◌≤◌, ◌==◌, ◌&&◌, not};
ghost use Rattle.hk_words.specs.Geometry.{tasks, numbers, list_length, space_words};
ghost use Rattle.hk_words.specs.Layout.{reference_number, w0_words, w0_objects};
ghost use Rattle.hk_core.specs.Step as table;
ghost use Rattle.hk_core.specs.Step.{event_of, reference_cell, number_cell, new_place, new_reference};
ghost use Rattle.hk_core.specs.Fits.{Fits, CallFits, NamesNumber, IsInSpaces};
ghost use Rattle.hk_words.specs.declared.call.Call.TheVariants.{Get, Put, Load, Store, Move, Clear, New};

use crate::flight::{reference_size, reserved_fits};
use crate::{Event, Flight};
use hk_words::{
    Call, ENTER, Geometry, LEAVE, Shape, pack_header, pack_reference, raise_by, reference_number,
    reference_refs, w0_cycle, w0_objects, w0_words,
};

impl Flight {
    /// The event of the flight's place, and None exactly where the place is a rest.
    #[tactic(auto, unfolding(crate::specs::Step::event_of, crate::specs::Step::event_at))]
    pub fn event(&self, g: &Geometry) -> Option<Event>
        requires { Fits g.now self.now }
        ensures { result ≡ event_of g.now self.now }
    {
        match self.call {
            Call::Get { reg, field } => self.get_event(g, reg, field),
            Call::Put { reg, field, value } => self.put_event(g, reg, field, value),
            Call::Move { dest, from } => self.move_event(g, dest, from),
            Call::Clear { dest } => self.clear_event(g, dest),
            Call::Load { dest, reg, field } => self.load_event(g, dest, reg, field),
            Call::Store { reg, field, from } => self.store_event(g, reg, field, from),
            Call::New { dest, shape } => self.new_event(g, dest, shape),
            Call::Same { .. } | Call::IsNull { .. } => None,
        }
    }

    #[tactic(auto, unfolding(crate::specs::Step::get_event))]
    fn get_event(&self, g: &Geometry, reg: u8, field: u8) -> Option<Event>
        requires { CallFits g.now self.now (Get reg field) }
        ensures { result ≡ table.get_event g.now self.now field }
    {
        match self.place {
            1 => self.enter_object(g),
            2 => Flight::read_cell(g, self.number_cell(field)),
            3 => self.leave_object(g),
            _ => None,
        }
    }

    #[tactic(auto, unfolding(crate::specs::Step::put_event))]
    fn put_event(&self, g: &Geometry, reg: u8, field: u8, value: u64) -> Option<Event>
        requires { CallFits g.now self.now (Put reg field value) }
        ensures { result ≡ table.put_event g.now self.now field value }
    {
        match self.place {
            1 => self.enter_object(g),
            2 => Flight::write_cell(g, self.number_cell(field), value),
            3 => self.leave_object(g),
            _ => None,
        }
    }

    #[tactic(auto, unfolding(crate::specs::Step::move_event))]
    fn move_event(&self, g: &Geometry, dest: u8, from: u8) -> Option<Event>
        requires seat { self.now.seat < tasks g.now }
        requires call { CallFits g.now self.now (Move dest from) }
        ensures { result ≡ table.move_event g.now self.now dest }
    {
        match self.place {
            1 => self.enter_frame(g),
            2 => self.write_register(g, dest, self.item),
            3 => self.leave_frame(g),
            _ => None,
        }
    }

    #[tactic(auto, unfolding(crate::specs::Step::clear_event))]
    fn clear_event(&self, g: &Geometry, dest: u8) -> Option<Event>
        requires seat { self.now.seat < tasks g.now }
        requires call { CallFits g.now self.now (Clear dest) }
        ensures { result ≡ table.clear_event g.now self.now dest }
    {
        match self.place {
            1 => self.write_register(g, dest, 0),
            _ => None,
        }
    }

    #[tactic(auto, unfolding(crate::specs::Step::load_event))]
    fn load_event(&self, g: &Geometry, dest: u8, reg: u8, field: u8) -> Option<Event>
        requires seat { self.now.seat < tasks g.now }
        requires call { CallFits g.now self.now (Load dest reg field) }
        ensures { result ≡ table.load_event g.now self.now dest field }
    {
        match self.place {
            1 => self.enter_frame(g),
            2 => self.enter_object(g),
            3 => Flight::load_w0(g),
            4 => Flight::read_cell(g, self.reference_cell(field)),
            5 => self.claim(g),
            6 => self.reserve(g),
            7 => self.link(g),
            8 => self.write_register(g, dest, self.item),
            9 => self.leave_object(g),
            10 => self.leave_frame(g),
            _ => None,
        }
    }

    #[tactic(auto, unfolding(crate::specs::Step::store_event))]
    fn store_event(&self, g: &Geometry, reg: u8, field: u8, from: u8) -> Option<Event>
        requires { CallFits g.now self.now (Store reg field from) }
        ensures { result ≡ table.store_event g.now self.now field }
    {
        match self.place {
            1 => self.enter_object(g),
            2 if self.item == 0 => None,
            2 => Flight::load_w0(g),
            3 => self.claim(g),
            4 => self.reserve(g),
            5 => self.link(g),
            6 => Flight::write_cell(g, self.reference_cell(field), self.item),
            7 => self.leave_object(g),
            _ => None,
        }
    }

    #[tactic(auto, unfolding(crate::specs::Step::new_event))]
    fn new_event(&self, g: &Geometry, dest: u8, shape: Shape) -> Option<Event>
        requires seat { self.now.seat < tasks g.now }
        requires call { CallFits g.now self.now (New dest shape) }
        ensures { result ≡ table.new_event g.now self.now dest shape }
    {
        match self.place {
            1 => Flight::load_w0(g),
            7 if self.full && !self.raised => None,
            7 => self.leave_frame(g),
            _ if self.full => None,
            2 => self.enter_frame(g),
            3 => Flight::raise(g, shape),
            4 => self.load_entry(g),
            5 => self.write_header(g),
            6 => self.write_register(g, dest, pack_reference(self.number, shape)),
            _ => None,
        }
    }

    /// The place of a number field of the entered object.
    pub(crate) fn number_cell(&self, field: u8) -> u32
        requires { number_cell self.now field < 2 ^ 32 }
        ensures { result ≡ number_cell self.now field }
    {
        self.at + 1 + u32::from(reference_refs(self.entered)) + u32::from(field)
    }

    /// The place of a reference field of the entered object.
    pub(crate) fn reference_cell(&self, field: u8) -> u32
        requires { reference_cell self.now field < 2 ^ 32 }
        ensures { result ≡ reference_cell self.now field }
    {
        self.at + 1 + u32::from(field)
    }

    #[tactic(auto, unfolding(crate::specs::Step::enter_object))]
    fn enter_object(&self, g: &Geometry) -> Option<Event>
        requires { NamesNumber g.now self.now.entered }
        ensures { result ≡ table.enter_object g.now self.now }
    {
        Some(Event::Add(g.header_at(reference_number(self.entered)), ENTER))
    }

    #[tactic(auto, unfolding(crate::specs::Step::leave_object))]
    fn leave_object(&self, g: &Geometry) -> Option<Event>
        requires { NamesNumber g.now self.now.entered }
        ensures { result ≡ table.leave_object g.now self.now }
    {
        Some(Event::Sub(g.header_at(reference_number(self.entered)), LEAVE))
    }

    #[tactic(auto, unfolding(crate::specs::Step::read_cell))]
    fn read_cell(g: &Geometry, place: u32) -> Option<Event>
        requires some { 0 < place }
        requires within { IsInSpaces g.now place }
        ensures { result ≡ table.read_cell g.now place }
    {
        Some(Event::Load(g.space_at(place)))
    }

    #[tactic(auto, unfolding(crate::specs::Step::write_cell))]
    fn write_cell(g: &Geometry, place: u32, value: u64) -> Option<Event>
        requires some { 0 < place }
        requires within { IsInSpaces g.now place }
        ensures { result ≡ table.write_cell g.now place value }
    {
        Some(Event::Write(g.space_at(place), value))
    }

    #[tactic(auto, unfolding(crate::specs::Step::enter_frame))]
    fn enter_frame(&self, g: &Geometry) -> Option<Event>
        requires { self.now.seat < tasks g.now }
        ensures { result ≡ table.enter_frame g.now self.now }
    {
        Some(Event::Add(g.frame_at(self.seat), ENTER))
    }

    #[tactic(auto, unfolding(crate::specs::Step::leave_frame))]
    fn leave_frame(&self, g: &Geometry) -> Option<Event>
        requires { self.now.seat < tasks g.now }
        ensures { result ≡ table.leave_frame g.now self.now }
    {
        Some(Event::Sub(g.frame_at(self.seat), LEAVE))
    }

    #[tactic(auto, unfolding(crate::specs::Step::load_w0))]
    fn load_w0(g: &Geometry) -> Option<Event>
        ensures { result ≡ table.load_w0 g.now }
    {
        Some(Event::Load(g.w0_at()))
    }

    #[tactic(auto, unfolding(crate::specs::Step::claim))]
    fn claim(&self, g: &Geometry) -> Option<Event>
        requires { self.now.item ≢ 0 → NamesNumber g.now self.now.item }
        ensures { result ≡ table.claim g.now self.now }
    {
        if self.item == 0 {
            return None;
        }
        Some(Event::Max(
            g.mark_at(reference_number(self.item)),
            u64::from(w0_cycle(self.word)),
        ))
    }

    #[tactic(auto, unfolding(crate::specs::Step::reserve))]
    fn reserve(&self, g: &Geometry) -> Option<Event>
        ensures { result ≡ table.reserve g.now self.now }
    {
        if !self.claimer {
            return None;
        }
        Some(Event::Add(g.w1_at(), u64::from(reference_size(self.item))))
    }

    #[tactic(auto, unfolding(crate::specs::Step::link))]
    fn link(&self, g: &Geometry) -> Option<Event>
        ensures { result ≡ table.link g.now self.now }
    {
        if self.claimer && reserved_fits(g, self.offset, self.item) {
            Some(Event::Write(
                g.space_at(g.place_at(self.side(), self.offset as u32)),
                self.item,
            ))
        } else {
            None
        }
    }

    /// The space, and the list, of the cycle in the W0 that the call has loaded or raised.
    pub(crate) fn side(&self) -> u8
        ensures side { result ≡ table.side_of self.now }
        ensures small { result < 2 }
    {
        (w0_cycle(self.word) % 2) as u8
    }

    #[tactic(auto, unfolding(crate::specs::Step::write_register))]
    fn write_register(&self, g: &Geometry, reg: u8, word: u64) -> Option<Event>
        requires seat { self.now.seat < tasks g.now }
        requires reg { reg < g.now.registers }
        ensures { result ≡ table.write_register g.now self.now reg word }
    {
        Some(Event::Write(g.register_at(self.seat, reg), word))
    }

    #[tactic(auto, unfolding(crate::specs::Step::raise))]
    fn raise(g: &Geometry, shape: Shape) -> Option<Event>
        ensures { result ≡ table.raise g.now shape }
    {
        Some(Event::Add(g.w0_at(), raise_by(shape.words())))
    }

    #[tactic(auto, unfolding(crate::specs::Step::load_entry))]
    fn load_entry(&self, g: &Geometry) -> Option<Event>
        requires { w0_objects self.now.word < list_length g.now }
        ensures { result ≡ table.load_entry g.now self.now }
    {
        Some(Event::Load(g.entry_at(self.side(), w0_objects(self.word))))
    }

    #[tactic(auto, unfolding(crate::specs::Step::write_header))]
    fn write_header(&self, g: &Geometry) -> Option<Event>
        requires number { self.now.number < numbers g.now }
        requires words { w0_words self.now.word < g.now.alloc }
        ensures { result ≡ table.write_header g.now self.now }
    {
        let place = g.place_at(self.side(), g.live() + w0_words(self.word));
        Some(Event::Write(g.header_at(self.number), pack_header(0, place, 0)))
    }
}
