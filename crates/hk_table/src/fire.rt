//! One event of a call in flight, as one atomic step of the table.
ghost use Rattle.std.specs.Prelude.{◌≡◌, ℕ, ◌<◌, Some};
ghost use Rattle.hk_core.specs.Event.{word_of, learnt_from};
ghost use Rattle.hk_core.specs.Step.{event_of};
ghost use Rattle.hk_table.specs.Knows.{pass};
ghost use Rattle.hk_table.specs.Deeds.{MayDo, Stepped, the_pass};

use crate::heap::{Heap, Seat};
use crate::rule::{Does, Done};
use hk_core::{Event, Flight};

impl Heap {
    /// Does the event of the deed, and answers what is learnt from it.
    pub(crate) fn fire<D: Does>(
        &self,
        seat: &mut Seat,
        _begins: bool,
        _flight: &Flight,
        event: &Event,
    ) -> u64
        requires table { seat.old.table_id ≡ self.now.table.shared.table_id }
        requires pass { seat.old.me.0.knows ≡ pass self.now.geometry (the_pass seat.old.me.0.knows) }
        requires may { MayDo self.now.geometry D.deed (the_pass seat.old.me.0.knows) }
        requires event { event_of self.now.geometry D.deed.flight ≡ Some event.now }
        requires within { word_of event.now < self.now.table.shared.table_id.words }
        ensures table { (seat.new.table_id ≡ seat.old.table_id) × (seat.new.id ≡ seat.old.id) }
        ensures stepped { (found : ℕ) × Stepped D.deed seat.old.me found seat.new.me × (result ≡ learnt_from event.now found) }
    {
        let table = &self.table.shared;
        match *event {
            Event::Load(word) => table.load::<Done<D>>(seat, word as usize),
            Event::Write(word, value) => {
                table.store::<Done<D>>(seat, word as usize, value);
                0
            },
            Event::Swap(word, value) => table.swap::<Done<D>>(seat, word as usize, value),
            Event::Add(word, amount) => table.fetch_add::<Done<D>>(seat, word as usize, amount),
            Event::Sub(word, amount) => table.fetch_sub::<Done<D>>(seat, word as usize, amount),
            Event::Max(word, value) => table.fetch_max::<Done<D>>(seat, word as usize, value),
            Event::Trade { word, current, new } => {
                table.compare_exchange::<Done<D>>(seat, word as usize, current, new)
            }
        }
    }
}
