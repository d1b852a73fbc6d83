//! What the collector does with a reference that it has loaded: claim, reserve and link.
ghost use Rattle.std.specs.Prelude.{◌≡◌, ◌<◌};
ghost use Rattle.hk_words.specs.Geometry.{space_words};
ghost use Rattle.hk_core.specs.Event.{CanFireIf, fired_if, learnt};
ghost use Rattle.hk_core.specs.Collect as table;
ghost use Rattle.hk_core.specs.Fits.{NamesNumber};

use crate::decide::current_space;
use hk_core::{Core, Event, reference_size};
use hk_words::reference_number;

/// Claims the object that the loaded reference names, and answers what its mark was.
#[tactic(auto, unfolding(hk_core::specs::Collect::claim_cell, hk_core::specs::Event::fired_if, hk_core::specs::Event::learnt))]
pub fn claim(core: &mut Core) -> u64
    requires number { NamesNumber core.old.geometry core.old.spot.cell }
    requires fires { CanFireIf core.old.row (table.claim_cell core.old.geometry core.old.spot) }
    ensures row { core.new ≡ record core.old { row = fired_if core.old.row (table.claim_cell core.old.geometry core.old.spot) } }
    ensures mark { result ≡ learnt core.old.row (table.claim_cell core.old.geometry core.old.spot) }
{
    let spot = core.spot();
    let mark = core.mark_at(reference_number(spot.cell));
    core.fire(Event::Max(mark, spot.cycle))
}

/// Reserves a place for the object that was claimed, and answers its offset.
#[tactic(auto, unfolding(hk_core::specs::Collect::reserve_cell, hk_core::specs::Event::fired_if, hk_core::specs::Event::learnt))]
pub fn reserve(core: &mut Core) -> u64
    requires { CanFireIf core.old.row (table.reserve_cell core.old.geometry core.old.spot) }
    ensures row { core.new ≡ record core.old { row = fired_if core.old.row (table.reserve_cell core.old.geometry core.old.spot) } }
    ensures offset { result ≡ learnt core.old.row (table.reserve_cell core.old.geometry core.old.spot) }
{
    let g = core.geometry();
    let cell = core.spot().cell;
    core.fire(Event::Add(g.w1_at(), u64::from(reference_size(cell))))
}

/// Writes the reference to the place that was reserved.
#[tactic(auto, unfolding(hk_core::specs::Collect::link_cell, hk_core::specs::Event::fired_if))]
pub fn link(core: &mut Core)
    requires offset { core.old.spot.offset < space_words core.old.geometry }
    requires fires { CanFireIf core.old.row (table.link_cell core.old.geometry core.old.spot) }
    ensures { core.new ≡ record core.old { row = fired_if core.old.row (table.link_cell core.old.geometry core.old.spot) } }
{
    let g = core.geometry();
    let spot = core.spot();
    let word = core.space_at(g.place_at(current_space(spot.cycle), spot.offset as u32));
    core.fire(Event::Write(word, spot.cell));
}
