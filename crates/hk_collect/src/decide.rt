//! The event of each line of the collector's spot.
ghost use Rattle.std.specs.Prelude.{◌≡◌, ◌+◌, ◌<◌, ◌≤◌};
ghost use Rattle.hk_words.specs.Geometry.{tasks, numbers, space_words};
ghost use Rattle.hk_words.specs.Row.{IsRegister};
ghost use Rattle.hk_core.specs.Collect as table;
ghost use Rattle.hk_core.specs.Collect.{spot_event, last_cycle, current_space, old_space, moved_from, moved_to};
ghost use Rattle.hk_core.specs.Fits.{NamesNumber};
ghost use Rattle.hk_core.specs.Step.{reference_size};
ghost use Rattle.hk_collect.specs.SpotFits.{SpotFits, RegisterFits, CellFits, SweepFits};

use hk_core::{Event, Line, Spot, Stage, reference_size};
use hk_words::{Geometry, frame_blackened, header_moved, header_place, pack_w0, reference_number};

/// The last cycle that there is.
pub const LAST_CYCLE: u64 = (1 << 20) - 1;

/// The event of the collector's spot, and None exactly where there are no more cycles.
#[tactic(auto, unfolding(hk_core::specs::Collect::spot_event, hk_core::specs::Collect::event_at_line))]
pub fn event(spot: &Spot, g: &Geometry) -> Option<Event>
    requires { SpotFits g.now spot.now }
    ensures { result ≡ spot_event g.now spot.now }
{
    match spot.line {
        Line::Rest => rest_event(spot, g),
        Line::Frame(seat) => frame_event(g, seat),
        Line::Register { seat, reg, stage } => register_event(spot, g, seat, reg, stage),
        Line::FrameTrade(seat) => frame_trade_event(spot, g, seat),
        Line::Scan => scan_event(g),
        Line::Link => link_event(spot, g),
        Line::Look => look_event(spot, g),
        Line::Cell { index, stage } => cell_event(spot, g, index, stage),
        Line::ObjectTrade => object_trade_event(spot, g),
        Line::Pass(number) => pass_event(g, number),
        Line::PassHead(number) => pass_head_event(g, number),
        Line::Sweep { number, stage } => sweep_event(spot, g, number, stage),
        Line::Clear(word) => clear_event(spot, g, word),
        Line::Reset => reset_event(g),
    }
}

/// The space to which objects are moved in a cycle.
pub fn current_space(cycle: u64) -> u8
    ensures space { result ≡ current_space cycle }
    ensures small { result < 2 }
{
    (cycle % 2) as u8
}

/// The space from which objects are moved in a cycle; the list of the next cycle has the same number.
pub fn old_space(cycle: u64) -> u8
    requires { cycle ≤ last_cycle }
    ensures space { result ≡ old_space cycle }
    ensures small { result < 2 }
{
    ((cycle + 1) % 2) as u8
}

/// The new place of the object that is moved.
pub fn moved_to(spot: &Spot, g: &Geometry) -> u32
    requires { spot.now.scan < space_words g.now }
    ensures { result ≡ moved_to g.now spot.now }
{
    g.place_at(current_space(spot.cycle), spot.scan)
}

#[tactic(auto, unfolding(hk_core::specs::Collect::claim_cell))]
fn claim_cell(spot: &Spot, g: &Geometry) -> Option<Event>
    requires { NamesNumber g.now spot.now.cell }
    ensures { result ≡ table.claim_cell g.now spot.now }
{
    Some(Event::Max(g.mark_at(reference_number(spot.cell)), spot.cycle))
}

#[tactic(auto, unfolding(hk_core::specs::Collect::reserve_cell))]
fn reserve_cell(spot: &Spot, g: &Geometry) -> Option<Event>
    ensures { result ≡ table.reserve_cell g.now spot.now }
{
    Some(Event::Add(g.w1_at(), u64::from(reference_size(spot.cell))))
}

#[tactic(auto, unfolding(hk_core::specs::Collect::link_cell))]
fn link_cell(spot: &Spot, g: &Geometry) -> Option<Event>
    requires { spot.now.offset < space_words g.now }
    ensures { result ≡ table.link_cell g.now spot.now }
{
    let place = g.place_at(current_space(spot.cycle), spot.offset as u32);
    Some(Event::Write(g.space_at(place), spot.cell))
}

#[tactic(auto, unfolding(hk_core::specs::Collect::rest_event))]
fn rest_event(spot: &Spot, g: &Geometry) -> Option<Event>
    requires { spot.now.cycle ≤ last_cycle }
    ensures { result ≡ table.rest_event g.now spot.now }
{
    if spot.cycle == LAST_CYCLE {
        return None;
    }
    Some(Event::Swap(g.w0_at(), pack_w0(0, 0, (spot.cycle + 1) as u32)))
}

#[tactic(auto, unfolding(hk_core::specs::Collect::frame_event))]
fn frame_event(g: &Geometry, seat: u8) -> Option<Event>
    requires { seat < tasks g.now }
    ensures { result ≡ table.frame_event g.now seat }
{
    Some(Event::Load(g.frame_at(seat)))
}

#[tactic(auto, unfolding(hk_core::specs::Collect::register_event))]
fn register_event(spot: &Spot, g: &Geometry, seat: u8, reg: u8, stage: Stage) -> Option<Event>
    requires register { IsRegister g.now seat reg }
    requires stage { RegisterFits g.now spot.now stage }
    ensures { result ≡ table.register_event g.now spot.now seat reg stage }
{
    match stage {
        Stage::Read => Some(Event::Load(g.register_at(seat, reg))),
        Stage::Claim => claim_cell(spot, g),
        Stage::Reserve => reserve_cell(spot, g),
        Stage::Tie => link_cell(spot, g),
        Stage::Write | Stage::Mark | Stage::Empty => None,
    }
}

#[tactic(auto, unfolding(hk_core::specs::Collect::frame_trade_event))]
fn frame_trade_event(spot: &Spot, g: &Geometry, seat: u8) -> Option<Event>
    requires seat { seat < tasks g.now }
    requires cycle { spot.now.cycle ≤ last_cycle }
    ensures { result ≡ table.frame_trade_event g.now spot.now seat }
{
    Some(Event::Trade {
        word: g.frame_at(seat),
        current: spot.first,
        new: frame_blackened(spot.first, spot.cycle as u32),
    })
}

#[tactic(auto, unfolding(hk_core::specs::Collect::scan_event))]
fn scan_event(g: &Geometry) -> Option<Event>
    ensures { result ≡ table.scan_event g.now }
{
    Some(Event::Load(g.w1_at()))
}

#[tactic(auto, unfolding(hk_core::specs::Collect::link_event))]
fn link_event(spot: &Spot, g: &Geometry) -> Option<Event>
    requires { spot.now.scan < space_words g.now }
    ensures { result ≡ table.link_event g.now spot.now }
{
    Some(Event::Load(g.space_at(moved_to(spot, g))))
}

#[tactic(auto, unfolding(hk_core::specs::Collect::look_event))]
fn look_event(spot: &Spot, g: &Geometry) -> Option<Event>
    requires { NamesNumber g.now spot.now.item }
    ensures { result ≡ table.look_event g.now spot.now }
{
    Some(Event::Load(g.header_at(reference_number(spot.item))))
}

#[tactic(auto, unfolding(hk_core::specs::Collect::cell_event))]
fn cell_event(spot: &Spot, g: &Geometry, index: u8, stage: Stage) -> Option<Event>
    requires { CellFits g.now spot.now index stage }
    ensures { result ≡ table.cell_event g.now spot.now index stage }
{
    match stage {
        Stage::Read => Some(Event::Load(g.space_at(old_cell(spot, index)))),
        Stage::Claim => claim_cell(spot, g),
        Stage::Reserve => reserve_cell(spot, g),
        Stage::Tie => link_cell(spot, g),
        Stage::Write => Some(Event::Write(
            g.space_at(moved_to(spot, g) + 1 + u32::from(index)),
            spot.cell,
        )),
        Stage::Mark | Stage::Empty => None,
    }
}

/// The place of a cell of the object that is moved, in the old space.
pub fn old_cell(spot: &Spot, index: u8) -> u32
    ensures { result ≡ moved_from spot.now + 1 + index }
{
    header_place(spot.first) + 1 + u32::from(index)
}

#[tactic(auto, unfolding(hk_core::specs::Collect::object_trade_event))]
fn object_trade_event(spot: &Spot, g: &Geometry) -> Option<Event>
    requires item { NamesNumber g.now spot.now.item }
    requires scan { spot.now.scan < space_words g.now }
    ensures { result ≡ table.object_trade_event g.now spot.now }
{
    Some(Event::Trade {
        word: g.header_at(reference_number(spot.item)),
        current: spot.first,
        new: header_moved(spot.first, moved_to(spot, g)),
    })
}

#[tactic(auto, unfolding(hk_core::specs::Collect::pass_event))]
fn pass_event(g: &Geometry, number: u32) -> Option<Event>
    requires { number < numbers g.now }
    ensures { result ≡ table.pass_event g.now number }
{
    Some(Event::Load(g.mark_at(number)))
}

#[tactic(auto, unfolding(hk_core::specs::Collect::pass_head_event))]
fn pass_head_event(g: &Geometry, number: u32) -> Option<Event>
    requires { number < numbers g.now }
    ensures { result ≡ table.pass_head_event g.now number }
{
    Some(Event::Load(g.header_at(number)))
}

#[tactic(auto, unfolding(hk_core::specs::Collect::sweep_event))]
fn sweep_event(spot: &Spot, g: &Geometry, number: u32, stage: Stage) -> Option<Event>
    requires number { number < numbers g.now }
    requires stage { SweepFits g.now spot.now stage }
    requires cycle { spot.now.cycle ≤ last_cycle }
    ensures { result ≡ table.sweep_event g.now spot.now number stage }
{
    match stage {
        Stage::Read => Some(Event::Load(g.mark_at(number))),
        Stage::Write => Some(Event::Write(
            g.entry_at(old_space(spot.cycle), spot.entries),
            u64::from(number),
        )),
        Stage::Mark => Some(Event::Write(g.mark_at(number), spot.cycle + 1)),
        Stage::Empty => Some(Event::Write(g.header_at(number), 0)),
        Stage::Claim | Stage::Reserve | Stage::Tie => None,
    }
}

#[tactic(auto, unfolding(hk_core::specs::Collect::clear_event))]
fn clear_event(spot: &Spot, g: &Geometry, word: u32) -> Option<Event>
    requires word { word < space_words g.now }
    requires cycle { spot.now.cycle ≤ last_cycle }
    ensures { result ≡ table.clear_event g.now spot.now word }
{
    Some(Event::Write(g.space_at(g.place_at(old_space(spot.cycle), word)), 0))
}

#[tactic(auto, unfolding(hk_core::specs::Collect::reset_event))]
fn reset_event(g: &Geometry) -> Option<Event>
    ensures { result ≡ table.reset_event g.now }
{
    Some(Event::Write(g.w1_at(), 0))
}
