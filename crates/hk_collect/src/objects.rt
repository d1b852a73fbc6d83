//! The objects that are moved: each function does the event of one line, at a cell of one stage.
ghost use Rattle.std.specs.Prelude.{◌≡◌, ◌+◌, ◌<◌};
ghost use Rattle.hk_words.specs.Geometry.{space_words};
ghost use Rattle.hk_core.specs.Step.{reference_size};
ghost use Rattle.hk_core.specs.Collect.{moved_from};
ghost use Rattle.hk_core.specs.Fits.{NamesNumber, IsInSpaces};
ghost use Rattle.hk_core.specs.declared.spot.Line.TheVariants as lines;
ghost use Rattle.hk_core.specs.declared.spot.Stage.TheVariants as stages;
ghost use Rattle.hk_collect.specs.AtLine.{next_at, work_at, Fires};
ghost use Rattle.hk_collect.specs.SpotFits.{FewSpent, CellFits};

use crate::claims::{claim, link, reserve};
use crate::decide::{moved_to, old_cell};
use crate::follow::{after_cell, is_reference};
use hk_core::{Core, Event, Line, Stage, Work, reference_size, reserved_fits};
use hk_words::{header_accessors, header_moved, reference_number};

/// Loads the words that are reserved: too many, more than the scan has come to, or no more than that.
#[tactic(auto, unfolding(hk_core::specs::Collect::event_at_line, hk_core::specs::Collect::took_at_line, hk_core::specs::Collect::work_at_line, hk_core::specs::Collect::scan_event, hk_core::specs::Collect::scan_took, hk_core::specs::Collect::scan_work, hk_core::specs::Event::fired_if, hk_core::specs::Event::learnt))]
pub fn scan(core: &mut Core) -> Work
    requires fires { Fires core.old lines.Scan }
    ensures next { core.new ≡ next_at core.old lines.Scan }
    ensures work { result ≡ work_at core.old lines.Scan }
{
    let g = core.geometry();
    let scan = core.spot().scan;
    let found = core.fire(Event::Load(g.w1_at()));
    if found > u64::from(g.live()) {
        return Work::LiveOver(found);
    }
    core.set_line(if u64::from(scan) < found {
        Line::Link
    } else {
        Line::Pass(0)
    });
    Work::Useful
}

/// Loads the link word at the scan offset, which names the object to move once it is written.
#[tactic(auto, unfolding(hk_core::specs::Collect::event_at_line, hk_core::specs::Collect::took_at_line, hk_core::specs::Collect::work_at_line, hk_core::specs::Collect::link_event, hk_core::specs::Collect::link_took, hk_core::specs::Collect::link_work, hk_core::specs::Event::fired_if, hk_core::specs::Event::learnt))]
pub fn link_word(core: &mut Core) -> Work
    requires scan { core.old.spot.scan < space_words core.old.geometry }
    requires fires { Fires core.old lines.Link }
    ensures next { core.new ≡ next_at core.old lines.Link }
    ensures work { result ≡ work_at core.old lines.Link }
{
    let g = core.geometry();
    let place = moved_to(&core.spot(), &g);
    let word = core.space_at(place);
    let found = core.fire(Event::Load(word));
    if found == 0 {
        core.set_line(Line::Scan);
        return Work::Unlinked(place);
    }
    core.set_item(found);
    core.set_line(Line::Look);
    Work::Useful
}

/// Loads the header of the object to move, and begins an attempt where no call is inside.
#[tactic(auto, unfolding(hk_core::specs::Collect::event_at_line, hk_core::specs::Collect::took_at_line, hk_core::specs::Collect::work_at_line, hk_core::specs::Collect::look_event, hk_core::specs::Collect::look_took, hk_core::specs::Collect::look_work, hk_core::specs::Event::fired_if, hk_core::specs::Event::learnt))]
pub fn look(core: &mut Core) -> Work
    requires item { NamesNumber core.old.geometry core.old.spot.item }
    requires fires { Fires core.old lines.Look }
    ensures next { core.new ≡ next_at core.old lines.Look }
    ensures work { result ≡ work_at core.old lines.Look }
{
    let number = reference_number(core.spot().item);
    let word = core.header_at(number);
    let found = core.fire(Event::Load(word));
    if header_accessors(found) > 0 {
        return Work::BusyObject(number);
    }
    core.set_first(found);
    core.set_spent(1);
    core.set_line(Line::Cell {
        index: 0,
        stage: Stage::Read,
    });
    Work::Useful
}

/// Goes on with a cell of the object that is moved.
#[tactic(auto, unfolding(hk_core::specs::Collect::event_at_line, hk_core::specs::Collect::took_at_line, hk_core::specs::Collect::work_at_line, hk_core::specs::Collect::cell_event, hk_core::specs::Collect::cell_took, hk_core::specs::Event::fired_if, hk_core::specs::Event::learnt))]
pub fn cell(core: &mut Core, index: u8, stage: Stage) -> Work
    requires inside { index + 1 < reference_size core.old.spot.item }
    requires size { reference_size core.old.spot.item < 256 }
    requires stage { CellFits core.old.geometry core.old.spot index stage }
    requires spent { FewSpent core.old.spot }
    requires fires { Fires core.old (lines.Cell index stage) }
    ensures next { core.new ≡ next_at core.old (lines.Cell index stage) }
    ensures work { result ≡ work_at core.old (lines.Cell index stage) }
{
    match stage {
        Stage::Read => load_cell(core, index),
        Stage::Claim => claim_cell(core, index),
        Stage::Reserve => reserve_cell(core, index),
        Stage::Tie => link_cell(core, index),
        Stage::Write => write_cell(core, index),
        Stage::Mark | Stage::Empty => Work::Useful,
    }
}

/// Loads a cell at the old place: its object is claimed next, where it is a reference that isn't null.
#[tactic(auto, unfolding(hk_core::specs::Collect::event_at_line, hk_core::specs::Collect::took_at_line, hk_core::specs::Collect::work_at_line, hk_core::specs::Collect::cell_event, hk_core::specs::Collect::cell_took, hk_core::specs::Event::fired_if, hk_core::specs::Event::learnt))]
fn load_cell(core: &mut Core, index: u8) -> Work
    requires within { IsInSpaces core.old.geometry (moved_from core.old.spot + 1 + index) }
    requires spent { FewSpent core.old.spot }
    requires fires { Fires core.old (lines.Cell index stages.Read) }
    ensures next { core.new ≡ next_at core.old (lines.Cell index stages.Read) }
    ensures work { result ≡ work_at core.old (lines.Cell index stages.Read) }
{
    let spot = core.spot();
    let word = core.space_at(old_cell(&spot, index));
    let found = core.fire(Event::Load(word));
    core.set_cell(found);
    core.set_spent(spot.spent + 1);
    core.set_line(Line::Cell {
        index,
        stage: if is_reference(&spot, index, found) {
            Stage::Claim
        } else {
            Stage::Write
        },
    });
    Work::Useful
}

/// Claims the object of a cell: a place is reserved next, where the collector is the first.
#[tactic(auto, unfolding(hk_core::specs::Collect::event_at_line, hk_core::specs::Collect::took_at_line, hk_core::specs::Collect::work_at_line, hk_core::specs::Collect::cell_event, hk_core::specs::Collect::cell_took, hk_core::specs::Event::fired_if, hk_core::specs::Event::learnt))]
fn claim_cell(core: &mut Core, index: u8) -> Work
    requires number { NamesNumber core.old.geometry core.old.spot.cell }
    requires spent { FewSpent core.old.spot }
    requires fires { Fires core.old (lines.Cell index stages.Claim) }
    ensures next { core.new ≡ next_at core.old (lines.Cell index stages.Claim) }
    ensures work { result ≡ work_at core.old (lines.Cell index stages.Claim) }
{
    let spot = core.spot();
    let mark = claim(core);
    core.set_spent(spot.spent + 1);
    core.set_line(Line::Cell {
        index,
        stage: if mark < spot.cycle {
            Stage::Reserve
        } else {
            Stage::Write
        },
    });
    Work::Useful
}

/// Reserves a place for the object of a cell: it is linked next, where it fits.
#[tactic(auto, unfolding(hk_core::specs::Collect::event_at_line, hk_core::specs::Collect::took_at_line, hk_core::specs::Collect::work_at_line, hk_core::specs::Collect::cell_event, hk_core::specs::Collect::cell_took, hk_core::specs::Event::fired_if, hk_core::specs::Event::learnt))]
fn reserve_cell(core: &mut Core, index: u8) -> Work
    requires spent { FewSpent core.old.spot }
    requires fires { Fires core.old (lines.Cell index stages.Reserve) }
    ensures next { core.new ≡ next_at core.old (lines.Cell index stages.Reserve) }
    ensures work { result ≡ work_at core.old (lines.Cell index stages.Reserve) }
{
    let g = core.geometry();
    let spot = core.spot();
    let offset = reserve(core);
    core.set_offset(offset);
    core.set_spent(spot.spent + 1);
    core.set_line(Line::Cell {
        index,
        stage: if reserved_fits(&g, offset, spot.cell) {
            Stage::Tie
        } else {
            Stage::Write
        },
    });
    Work::Useful
}

/// Links the object of a cell.
#[tactic(auto, unfolding(hk_core::specs::Collect::event_at_line, hk_core::specs::Collect::took_at_line, hk_core::specs::Collect::work_at_line, hk_core::specs::Collect::cell_event, hk_core::specs::Collect::cell_took, hk_core::specs::Event::fired_if, hk_core::specs::Event::learnt))]
fn link_cell(core: &mut Core, index: u8) -> Work
    requires offset { core.old.spot.offset < space_words core.old.geometry }
    requires spent { FewSpent core.old.spot }
    requires fires { Fires core.old (lines.Cell index stages.Tie) }
    ensures next { core.new ≡ next_at core.old (lines.Cell index stages.Tie) }
    ensures work { result ≡ work_at core.old (lines.Cell index stages.Tie) }
{
    let spent = core.spot().spent;
    link(core);
    core.set_spent(spent + 1);
    core.set_line(Line::Cell {
        index,
        stage: Stage::Write,
    });
    Work::Useful
}

/// Writes a cell at the new place.
#[tactic(auto, unfolding(hk_core::specs::Collect::event_at_line, hk_core::specs::Collect::took_at_line, hk_core::specs::Collect::work_at_line, hk_core::specs::Collect::cell_event, hk_core::specs::Collect::cell_took, hk_core::specs::Event::fired_if, hk_core::specs::Event::learnt))]
fn write_cell(core: &mut Core, index: u8) -> Work
    requires size { reference_size core.old.spot.item < 256 }
    requires scan { core.old.spot.scan + 1 + index < space_words core.old.geometry }
    requires inside { index + 1 < reference_size core.old.spot.item }
    requires spent { FewSpent core.old.spot }
    requires fires { Fires core.old (lines.Cell index stages.Write) }
    ensures next { core.new ≡ next_at core.old (lines.Cell index stages.Write) }
    ensures work { result ≡ work_at core.old (lines.Cell index stages.Write) }
{
    let g = core.geometry();
    let spot = core.spot();
    let word = core.space_at(moved_to(&spot, &g) + 1 + u32::from(index));
    core.fire(Event::Write(word, spot.cell));
    core.set_spent(spot.spent + 1);
    core.set_line(after_cell(&spot, index));
    Work::Useful
}

/// Gives the object its new place, where its header is still the one that the attempt loaded.
#[tactic(auto, unfolding(hk_core::specs::Collect::event_at_line, hk_core::specs::Collect::took_at_line, hk_core::specs::Collect::work_at_line, hk_core::specs::Collect::object_trade_event, hk_core::specs::Collect::object_trade_took, hk_core::specs::Collect::object_trade_work, hk_core::specs::Event::fired_if, hk_core::specs::Event::learnt))]
pub fn object_trade(core: &mut Core) -> Work
    requires item { NamesNumber core.old.geometry core.old.spot.item }
    requires scan { core.old.spot.scan < space_words core.old.geometry }
    requires spent { FewSpent core.old.spot }
    requires fires { Fires core.old lines.ObjectTrade }
    ensures next { core.new ≡ next_at core.old lines.ObjectTrade }
    ensures work { result ≡ work_at core.old lines.ObjectTrade }
{
    let g = core.geometry();
    let spot = core.spot();
    let word = core.header_at(reference_number(spot.item));
    let found = core.fire(Event::Trade {
        word,
        current: spot.first,
        new: header_moved(spot.first, moved_to(&spot, &g)),
    });
    if found == spot.first {
        core.set_scan(spot.scan + reference_size(spot.item));
        core.set_line(Line::Scan);
        Work::Useful
    } else {
        core.set_line(Line::Look);
        Work::Lost(spot.spent + 1)
    }
}
