//! A Load and a Store in one piece: what they read or copy is claimed, and where they are the first to claim it, a place is
//! reserved and linked.
ghost use Rattle.std.specs.Prelude.{◌≡◌, ℕ, ◌%◌, ◌<◌, Some, None, IfNone, MatchResult, slice_index};
ghost use Rattle.hk_words.specs.Geometry.{tasks};
ghost use Rattle.hk_words.specs.Row.{IsRegister, place_at, space_at};
ghost use Rattle.hk_words.specs.Calls.{RegistersFit};
ghost use Rattle.hk_words.specs.declared.call.Call.TheVariants.{Load, Store};
ghost use Rattle.hk_words.specs.declared.call.Reply.TheVariants.{Unit};
ghost use Rattle.hk_model.specs.History.{History};
ghost use Rattle.hk_core.specs.State.{flight_of};
ghost use Rattle.hk_core.specs.Begin.{refusal, most_calls};
ghost use Rattle.hk_core.specs.Lawful.{Lawful, IsLawful};
ghost use Rattle.hk_core.specs.Event.{CanFireIf};
ghost use Rattle.hk_core.specs.Fits.{NamesNumber};
ghost use Rattle.hk_core.specs.Whole.{whole, whole_history, EndsAs};
ghost use Rattle.hk_core.specs.Passing.{begins, passed_by, CanPassBy};
ghost use Rattle.hk_core.specs.LinkRows.{ClaimFits, linked_row, ReadFits, item_row, item_read, cycle_read, LoadFits, load_row, cycle_event, seen_row, seen_word, StoreFits, store_row};
ghost use Rattle.hk_core.specs.declared.outcome.Outcome.TheVariants.{Done};

use crate::{Core, Event, Fault, MAX_CALLS, reference_size, reserved_fits};
use hk_words::{ENTER, Geometry, LEAVE, header_place, reference_number, reference_refs, w0_cycle};

impl Core {
    /// A Load in one piece: copies a reference field of the object that a register names into a register.
    pub fn load(&mut self, seat: u8, dest: u8, reg: u8, field: u8) -> Result<(), Fault>
        requires seat { seat < tasks self.old.geometry }
        requires idle { (flight_of self.old.flights seat).place ≡ 0 }
        requires registers { RegistersFit self.old.geometry.registers (Load dest reg field) }
        requires lawful { IsLawful self.old }
        ensures state { self.new ≡ whole self.old seat (Load dest reg field) }
        ensures answer { MatchResult result (λ _. EndsAs self.old seat (Load dest reg field) (Done Unit)) (λ fault. refusal self.old seat (Load dest reg field) ≡ Some fault) }
        ensures lawful { (history : History) → Lawful self.old history → Lawful self.new (whole_history self.old seat (Load dest reg field) history) }
    {
        if let Some(fault) = self.reference_refusal(seat, reg, field) {
            return Err(fault);
        }
        self.load_through(seat, dest, reg, field);
        self.close(seat);
        Ok(())
    }

    /// A Store in one piece: copies a register into a reference field of the object that a register names.
    pub fn store(&mut self, seat: u8, reg: u8, field: u8, from: u8) -> Result<(), Fault>
        requires seat { seat < tasks self.old.geometry }
        requires idle { (flight_of self.old.flights seat).place ≡ 0 }
        requires registers { RegistersFit self.old.geometry.registers (Store reg field from) }
        requires lawful { IsLawful self.old }
        ensures state { self.new ≡ whole self.old seat (Store reg field from) }
        ensures answer { MatchResult result (λ _. EndsAs self.old seat (Store reg field from) (Done Unit)) (λ fault. refusal self.old seat (Store reg field from) ≡ Some fault) }
        ensures lawful { (history : History) → Lawful self.old history → Lawful self.new (whole_history self.old seat (Store reg field from) history) }
    {
        if let Some(fault) = self.reference_refusal(seat, reg, field) {
            return Err(fault);
        }
        self.store_through(seat, reg, field, from);
        self.close(seat);
        Ok(())
    }

    /// The first reason why a Load, or a Store, isn't begun.
    #[tactic(auto, unfolding(crate::specs::Begin::refusal, crate::specs::Begin::entered_word))]
    fn reference_refusal(&self, seat: u8, reg: u8, field: u8) -> Option<Fault>
        requires { IsRegister self.now.geometry seat reg }
        ensures load { (dest : ℕ) → result ≡ refusal self.now seat (Load dest reg field) }
        ensures store { (from : ℕ) → result ≡ refusal self.now seat (Store reg field from) }
        ensures room { IfNone result (slice_index self.now.begun seat < most_calls) }
    {
        let entered = self.register(seat, reg);
        if self.begun[seat as usize] >= MAX_CALLS {
            Some(Fault::Spent)
        } else if entered == 0 {
            Some(Fault::Nil)
        } else if field >= reference_refs(entered) {
            Some(Fault::Field)
        } else {
            None
        }
    }

    /// Claims the object that a reference names, for the cycle of a W0. Where this is the first claim, a place is reserved for
    /// it, and linked where it fits.
    #[tactic(auto, unfolding(crate::specs::LinkRows::linked_row, crate::specs::LinkRows::reserved_row, crate::specs::LinkRows::claimed_row, crate::specs::Step::claim, crate::specs::Step::reserve, crate::specs::Step::link, crate::specs::Event::fired_if, crate::specs::Event::learnt))]
    fn claim_through(&mut self, item: u64, word: u64)
        requires { ClaimFits self.old.geometry self.old.row item word }
        ensures { self.new ≡ record self.old { row = linked_row self.old.geometry self.old.row item word } }
    {
        if item == 0 {
            return;
        }
        let g = self.geometry;
        let cycle = w0_cycle(word);
        let claimed = self.mark_at(reference_number(item));
        let mark = self.fire(Event::Max(claimed, u64::from(cycle)));
        if mark >= u64::from(cycle) {
            return;
        }
        let size = u64::from(reference_size(item));
        let offset = self.fire(Event::Add(g.w1_at(), size));
        if reserved_fits(&g, offset, item) {
            let word = link_at(&g, cycle, offset as u32);
            self.fire(Event::Write(word, item));
        }
    }

    /// The first places of a Load: its frame and the object are entered, W0 is loaded, and the cell is read. What the cell
    /// and W0 were.
    #[tactic(auto, unfolding(crate::specs::WholeRows::framed_row, crate::specs::LinkRows::entered_row, crate::specs::LinkRows::cell_of, crate::specs::LinkRows::cycle_row, crate::specs::LinkRows::cycle_read, crate::specs::LinkRows::item_row, crate::specs::LinkRows::item_read))]
    fn read_through(&mut self, seat: u8, entered: u64, field: u8) -> (u64, u64)
        requires seat { seat < tasks self.old.geometry }
        requires fits { ReadFits self.old.geometry self.old.row seat entered field }
        ensures row { self.new ≡ record self.old { row = item_row self.old.geometry self.old.row seat entered field } }
        ensures item { result.0 ≡ item_read self.old.geometry self.old.row seat entered field }
        ensures cycle { result.1 ≡ cycle_read self.old.geometry self.old.row seat entered }
    {
        let frame = self.frame_at(seat);
        let head = self.header_at(reference_number(entered));
        let w0 = self.geometry.w0_at();
        self.fire(Event::Add(frame, ENTER));
        let at = header_place(self.fire(Event::Add(head, ENTER)));
        let word = self.fire(Event::Load(w0));
        let cell = self.space_at(at + 1 + u32::from(field));
        let item = self.fire(Event::Load(cell));
        (item, word)
    }

    /// The places of a Load.
    fn load_through(&mut self, seat: u8, dest: u8, reg: u8, field: u8)
        requires dest { IsRegister self.old.geometry seat dest }
        requires register { IsRegister self.old.geometry seat reg }
        requires places { CanPassBy 10 self.old.geometry (begins self.old seat (Load dest reg field)) }
        ensures { self.new ≡ record self.old { row = (passed_by 10 self.old.geometry (begins self.old seat (Load dest reg field))).row } }
    {
        let entered = self.register(seat, reg);
        let read = self.read_through(seat, entered, field);
        self.write_through(seat, dest, entered, read.0, read.1);
    }

    /// The other places of a Load: what it has read is claimed, the register is written, and the object and the frame are left.
    #[tactic(auto, unfolding(crate::specs::LinkRows::loaded_row, crate::specs::LinkRows::load_row))]
    fn write_through(&mut self, seat: u8, dest: u8, entered: u64, item: u64, word: u64)
        requires dest { IsRegister self.old.geometry seat dest }
        requires number { NamesNumber self.old.geometry entered }
        requires fits { LoadFits self.old.geometry self.old.row seat dest entered item word }
        ensures { self.new ≡ record self.old { row = load_row self.old.geometry self.old.row seat dest entered item word } }
    {
        let register = self.register_at(seat, dest);
        let head = self.header_at(reference_number(entered));
        let frame = self.frame_at(seat);
        self.claim_through(item, word);
        self.fire(Event::Write(register, item));
        self.fire(Event::Sub(head, LEAVE));
        self.fire(Event::Sub(frame, LEAVE));
    }

    /// The places of a Store.
    fn store_through(&mut self, seat: u8, reg: u8, field: u8, from: u8)
        requires register { IsRegister self.old.geometry seat reg }
        requires source { IsRegister self.old.geometry seat from }
        requires places { CanPassBy 7 self.old.geometry (begins self.old seat (Store reg field from)) }
        ensures { self.new ≡ record self.old { row = (passed_by 7 self.old.geometry (begins self.old seat (Store reg field from))).row } }
    {
        let entered = self.register(seat, reg);
        let item = self.register(seat, from);
        self.copy_through(entered, field, item);
    }

    /// The places of a Store of a reference, through the object that another one names.
    #[tactic(auto, unfolding(crate::specs::WholeRows::inside_row, crate::specs::LinkRows::cell_inside, crate::specs::LinkRows::seen_row, crate::specs::LinkRows::seen_word, crate::specs::LinkRows::stored_row, crate::specs::LinkRows::store_row, crate::specs::Event::fired_if, crate::specs::Event::learnt))]
    fn copy_through(&mut self, entered: u64, field: u8, item: u64)
        requires { StoreFits self.old.geometry self.old.row entered field item }
        ensures { self.new ≡ record self.old { row = store_row self.old.geometry self.old.row entered field item } }
    {
        let head = self.header_at(reference_number(entered));
        let at = header_place(self.fire(Event::Add(head, ENTER)));
        let cell = self.space_at(at + 1 + u32::from(field));
        let word = self.cycle_for(item);
        self.claim_through(item, word);
        self.fire(Event::Write(cell, item));
        self.fire(Event::Sub(head, LEAVE));
    }

    /// Loads W0 where a reference isn't null. What it was, and 0 where it wasn't loaded.
    #[tactic(auto, unfolding(crate::specs::LinkRows::seen_row, crate::specs::LinkRows::seen_word, crate::specs::Step::load_w0, crate::specs::Event::fired_if, crate::specs::Event::learnt))]
    pub(crate) fn cycle_for(&mut self, item: u64) -> u64
        requires { CanFireIf self.old.row (cycle_event self.old.geometry item) }
        ensures row { self.new ≡ record self.old { row = seen_row self.old.geometry self.old.row item } }
        ensures word { result ≡ seen_word self.old.geometry self.old.row item }
    {
        if item == 0 {
            return 0;
        }
        let w0 = self.geometry.w0_at();
        self.fire(Event::Load(w0))
    }
}

/// The index of the word at an offset of the space of a cycle.
pub(crate) fn link_at(g: &Geometry, cycle: u32, offset: u32) -> u32
    requires { offset < g.now.live }
    ensures { result ≡ space_at g.now (place_at g.now (cycle % 2) offset) }
{
    g.space_at(g.place_at(space_of(cycle), offset))
}

/// The space of a cycle.
fn space_of(cycle: u32) -> u8
    ensures space { result ≡ cycle % 2 }
    ensures small { result < 2 }
{
    (cycle % 2) as u8
}
