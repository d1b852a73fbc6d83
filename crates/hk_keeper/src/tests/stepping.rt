//! A call that goes step by step, so that a test can hold it between any two of them.
//!
//! The heap stands on a table that the test made itself. So the test has the seat of the heap's one pass in hand, and does
//! each step of its call as the heap's own calls do it: the event of the flight, as one atomic step of that seat.
ghost use Rattle.std.specs.Prelude.{◌≡◌, ℕ, ◌<◌, ◌≤◌, Some, IfOk, false, slice_index};
ghost use Rattle.hk_words.specs.Geometry.{tasks};
ghost use Rattle.hk_words.specs.Calls.{RegistersFit};
ghost use Rattle.hk_core.specs.Event.{word_of, learnt_from};
ghost use Rattle.hk_core.specs.Step.{event_of};
ghost use Rattle.hk_core.specs.State.{opening_register};
ghost use Rattle.hk_core.specs.Fits.{Fits};
ghost use Rattle.hk_table.specs.Knows.{pass};
ghost use Rattle.hk_table.specs.Rule.{fresh};
ghost use Rattle.hk_table.specs.Deeds.{Deed, MayDo, MayBegin, Stands, Stepped, no_deed, is_rest, the_pass, entered_with, copied_with};
ghost use Rattle.hk_table.specs.Passes.{IsKeeperOf};

use atomic_table::{Play, Split, Table};
use hk_core::{Event, Flight, flight_by, opening_row, refusal_by};
use hk_table::{Heap, Keeper, Seat, View};
use hk_words::{Call, Geometry, Memory, pack_reference};
use std::alloc::Global;
use std::marker::{Brand, PhantomData};
use std::process::Abort;

/// The keeper makes the pass of the first seat.
struct FirstPass;

impl Split<View> for FirstPass {
    ghost use Rattle.hk_table.specs.Seats.{rest_of, made_of};

    ghost left = { λ v. record { knows = rest_of v.knows } };

    ghost right = { λ v. record { knows = made_of v.knows } };
}

/// What a step of the pass does, for the proof alone.
trait Does {
    ghost use Rattle.hk_table.specs.Deeds.{Deed};

    ghost deed: { Deed };
}

impl Does for Brand {
    ghost use Rattle.hk_table.specs.Deeds.{no_deed};

    ghost deed = { no_deed };
}

/// What such a step tells.
struct Done<D> {
    marker: PhantomData<D>,
}

impl<D: Does> Play<(), View> for Done<D> {
    ghost use Rattle.hk_table.specs.Deeds.{Stepped};

    ghost then = { λ step before found after. Stepped D.deed before found after };
}

/// A heap of one task, the seat of its pass, and its keeper.
pub fn open_stepped(alloc: Global, g: Geometry) -> Result<(Heap, Seat, Keeper), Memory>
    requires { tasks g ≡ 1 }
    ensures heap { IfOk result (λ r. r.0.geometry ≡ g) }
    ensures table { IfOk result (λ r. r.1.table_id ≡ r.0.table.shared.table_id) }
    ensures pass { IfOk result (λ r. r.1.me.0.knows ≡ pass g (fresh g 0)) }
    ensures keeper { IfOk result (λ r. IsKeeperOf r.0 r.2) }
{
    let (mut heap, _passes, keeper) = Heap::open(alloc, g)?;
    let row = opening_row(alloc, &g)?;
    let (table, mut seat) = Table::of_words(alloc, row.as_slice(), &g)?;
    heap.table = table;
    let pass = heap.table.shared.split_seat::<FirstPass>(&mut seat);
    let keeper = Keeper {
        seat,
        spot: keeper.spot,
    };
    Ok((heap, pass, keeper))
}

/// The word of a register as a heap is opened.
#[tactic(auto, unfolding(hk_core::specs::State::opening_register))]
fn opening_word(g: &Geometry, reg: u8) -> u64
    ensures { result ≡ opening_register g.now reg }
{
    if reg == 0 {
        pack_reference(0, g.board())
    } else {
        0
    }
}

/// What a register of a pass holds that has made no call.
fn first_word(g: &Geometry, reg: u8) -> u64
    requires { reg < g.now.registers }
    ensures { result ≡ slice_index (fresh g.now 0).registers reg }
{
    opening_word(g, reg)
}

/// The reference in the register that a first call goes through, and 0 where it goes through none.
fn entered(g: &Geometry, call: &Call) -> u64
    requires { RegistersFit g.now.registers call.now }
    ensures { result ≡ entered_with (fresh g.now 0).registers call.now }
{
    match *call {
        Call::Get { reg, .. }
        | Call::Put { reg, .. }
        | Call::Load { reg, .. }
        | Call::Store { reg, .. } => first_word(g, reg),
        Call::Move { .. }
        | Call::Clear { .. }
        | Call::New { .. }
        | Call::Same { .. }
        | Call::IsNull { .. } => 0,
    }
}

/// The reference in the register that a first call copies from, and 0 where it copies from none.
fn copied(g: &Geometry, call: &Call) -> u64
    requires { RegistersFit g.now.registers call.now }
    ensures { result ≡ copied_with (fresh g.now 0).registers call.now }
{
    match *call {
        Call::Store { from, .. } | Call::Move { from, .. } => first_word(g, from),
        Call::Get { .. }
        | Call::Put { .. }
        | Call::Load { .. }
        | Call::Clear { .. }
        | Call::New { .. }
        | Call::Same { .. }
        | Call::IsNull { .. } => 0,
    }
}

/// The flight of a pass's first call as it begins. It is no question, and isn't refused.
#[tactic(auto, unfolding(hk_table::specs::Deeds::first_with, hk_table::specs::Deeds::refused_with, hk_core::specs::State::idle))]
pub fn begin(rt: &impl Abort, g: &Geometry, call: Call) -> Flight
    ensures { MayBegin g.now (fresh g.now 0) result }
{
    assert!(rt; call.registers_fit(g.registers()));
    let question = matches!(call, Call::Same { .. } | Call::IsNull { .. });
    assert!(rt; !question);
    let entered = entered(g, &call);
    assert!(rt; refusal_by(0, &call, entered).is_none());
    let copied = copied(g, &call);
    flight_by(0, call, entered, copied)
}

/// Does the event of the deed, and answers what is learnt from it.
fn fire<D: Does>(
    heap: &Heap,
    seat: &mut Seat,
    _begins: bool,
    _flight: &Flight,
    event: &Event,
) -> u64
    requires table { seat.old.table_id ≡ heap.now.table.shared.table_id }
    requires pass { seat.old.me.0.knows ≡ pass heap.now.geometry (the_pass seat.old.me.0.knows) }
    requires may { MayDo heap.now.geometry D.deed (the_pass seat.old.me.0.knows) }
    requires event { event_of heap.now.geometry D.deed.flight ≡ Some event.now }
    requires within { word_of event.now < heap.now.table.shared.table_id.words }
    ensures table { (seat.new.table_id ≡ seat.old.table_id) × (seat.new.id ≡ seat.old.id) }
    ensures stepped { (found : ℕ) × Stepped D.deed seat.old.me found seat.new.me × (result ≡ learnt_from event.now found) }
{
    let table = &heap.table.shared;
    match *event {
        Event::Load(word) => table.load::<Done<D>>(seat, word as usize),
        Event::Write(word, value) => {
            table.store::<Done<D>>(seat, word as usize, value);
            0
        },
        Event::Swap(word, value) => table.swap::<Done<D>>(seat, word as usize, value),
        Event::Add(word, amount) => table.fetch_add::<Done<D>>(seat, word as usize, amount),
        Event::Sub(word, amount) => table.fetch_sub::<Done<D>>(seat, word as usize, amount),
        Event::Max(word, value) => table.fetch_max::<Done<D>>(seat, word as usize, value),
        Event::Trade { word, current, new } => {
            table.compare_exchange::<Done<D>>(seat, word as usize, current, new)
        }
    }
}

/// The call has a place left, and it is a rest.
#[tactic(auto, unfolding(hk_table::specs::Deeds::is_rest))]
fn is_rest(g: &Geometry, flight: &Flight) -> bool
    requires { 1 ≤ flight.now.place → Fits g.now flight.now }
    ensures { result ≡ is_rest g.now flight.now }
{
    flight.place != 0 && flight.event(g).is_none()
}

/// Does the place of a flight as one atomic step of the pass's seat. The next place is no rest.
pub fn step(rt: &impl Abort, heap: &Heap, seat: &mut Seat, begins: bool, flight: &mut Flight)
    requires table { seat.old.table_id ≡ heap.now.table.shared.table_id }
    requires pass { seat.old.me.0.knows ≡ pass heap.now.geometry (the_pass seat.old.me.0.knows) }
    requires stands { Stands heap.now.geometry (the_pass seat.old.me.0.knows) }
    requires may { MayDo heap.now.geometry (record { begins = begins; flight = flight.old }) (the_pass seat.old.me.0.knows) }
    requires used { is_rest heap.now.geometry flight.old ≡ false }
    ensures table { seat.new.table_id ≡ seat.old.table_id }
    ensures pass { seat.new.me.0.knows ≡ pass heap.now.geometry (the_pass seat.new.me.0.knows) }
    ensures stands { Stands heap.now.geometry (the_pass seat.new.me.0.knows) }
    ensures flight { flight.new ≡ (the_pass seat.new.me.0.knows).flight }
    ensures used { is_rest heap.now.geometry flight.new ≡ false }
{
    let g = heap.geometry();
    let Some(event) = flight.event(&g) else {
        unreachable!()
    };
    let found = fire::<Brand>(heap, seat, begins, flight, &event);
    flight.took(&g, found);
    if is_rest(&g, flight) {
        panic!(rt; "the next place is a rest")
    }
}
