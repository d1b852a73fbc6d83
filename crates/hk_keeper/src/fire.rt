//! One event of the collector, as one atomic step of the table.
ghost use Rattle.std.specs.Prelude.{◌≡◌, ℕ, ◌<◌, Some};
ghost use Rattle.hk_core.specs.Event.{word_of, learnt_from};
ghost use Rattle.hk_core.specs.Collect.{spot_event};
ghost use Rattle.hk_table.specs.Knows.{keeper};
ghost use Rattle.hk_table.specs.Seats.{Collected, the_keeper};

use atomic_table::Play;
use hk_core::Event;
use hk_table::{Heap, Seat, View};

/// What a step of the keeper tells.
pub struct Collects;

impl Play<(), View> for Collects {
    ghost use Rattle.hk_table.specs.Seats.{Collected};

    ghost then = { λ step before found after. Collected before found after };
}

/// Does the event of the keeper's spot, and answers what is learnt from it.
pub fn fire(heap: &Heap, seat: &mut Seat, event: &Event) -> u64
    requires table { seat.old.table_id ≡ heap.now.table.shared.table_id }
    requires keeper { seat.old.me.0.knows ≡ keeper heap.now.geometry (the_keeper seat.old.me.0.knows) }
    requires event { spot_event heap.now.geometry (the_keeper seat.old.me.0.knows).spot ≡ Some event.now }
    requires within { word_of event.now < heap.now.table.shared.table_id.words }
    ensures table { (seat.new.table_id ≡ seat.old.table_id) × (seat.new.id ≡ seat.old.id) }
    ensures collected { (found : ℕ) × Collected seat.old.me found seat.new.me × (result ≡ learnt_from event.now found) }
{
    let table = &heap.table.shared;
    match *event {
        Event::Load(word) => table.load::<Collects>(seat, word as usize),
        Event::Write(word, value) => {
            table.store::<Collects>(seat, word as usize, value);
            0
        },
        Event::Swap(word, value) => table.swap::<Collects>(seat, word as usize, value),
        Event::Add(word, amount) => table.fetch_add::<Collects>(seat, word as usize, amount),
        Event::Sub(word, amount) => table.fetch_sub::<Collects>(seat, word as usize, amount),
        Event::Max(word, value) => table.fetch_max::<Collects>(seat, word as usize, value),
        Event::Trade { word, current, new } => {
            table.compare_exchange::<Collects>(seat, word as usize, current, new)
        }
    }
}
