//! The flip and the frames: each function does the event of one line, at a register of one stage.
ghost use Rattle.std.specs.Prelude.{◌≡◌, ◌<◌, ◌≤◌};
ghost use Rattle.hk_words.specs.Geometry.{tasks, space_words};
ghost use Rattle.hk_words.specs.Row.{IsRegister};
ghost use Rattle.hk_core.specs.Collect.{last_cycle};
ghost use Rattle.hk_core.specs.Fits.{NamesNumber};
ghost use Rattle.hk_core.specs.declared.spot.Line.TheVariants as lines;
ghost use Rattle.hk_core.specs.declared.spot.Stage.TheVariants as stages;
ghost use Rattle.hk_collect.specs.AtLine.{next_at, work_at, Fires};
ghost use Rattle.hk_collect.specs.SpotFits.{FewSpent, RegisterFits};

use crate::claims::{claim, link, reserve};
use crate::decide::LAST_CYCLE;
use crate::follow::{after_frame, after_register};
use hk_core::{Core, Event, Line, Spot, Stage, Work, reserved_fits};
use hk_words::{frame_accessors, frame_blackened, pack_w0};

/// Flips the spaces, where there is a next cycle.
#[tactic(auto, unfolding(hk_core::specs::Collect::event_at_line, hk_core::specs::Collect::took_at_line, hk_core::specs::Collect::work_at_line, hk_core::specs::Collect::rest_event, hk_core::specs::Collect::rest_took, hk_core::specs::Collect::rest_work, hk_core::specs::Event::fired_if, hk_core::specs::Event::learnt))]
pub fn rest(core: &mut Core) -> Work
    requires cycle { core.old.spot.cycle ≤ last_cycle }
    requires fires { Fires core.old lines.Rest }
    ensures next { core.new ≡ next_at core.old lines.Rest }
    ensures work { result ≡ work_at core.old lines.Rest }
{
    let g = core.geometry();
    let cycle = core.spot().cycle;
    if cycle == LAST_CYCLE {
        return Work::Worn;
    }
    core.fire(Event::Swap(g.w0_at(), pack_w0(0, 0, (cycle + 1) as u32)));
    core.set_spot(Spot {
        line: Line::Frame(0),
        cycle: cycle + 1,
        scan: 0,
        entries: 0,
        first: 0,
        item: 0,
        cell: 0,
        offset: 0,
        spent: 0,
    });
    Work::Flipped
}

/// Loads a frame word, and begins an attempt where no call is inside.
#[tactic(auto, unfolding(hk_core::specs::Collect::event_at_line, hk_core::specs::Collect::took_at_line, hk_core::specs::Collect::work_at_line, hk_core::specs::Collect::frame_event, hk_core::specs::Collect::frame_took, hk_core::specs::Collect::frame_work, hk_core::specs::Event::fired_if, hk_core::specs::Event::learnt))]
pub fn frame(core: &mut Core, seat: u8) -> Work
    requires seat { seat < tasks core.old.geometry }
    requires fires { Fires core.old (lines.Frame seat) }
    ensures next { core.new ≡ next_at core.old (lines.Frame seat) }
    ensures work { result ≡ work_at core.old (lines.Frame seat) }
{
    let word = core.frame_at(seat);
    let found = core.fire(Event::Load(word));
    if frame_accessors(found) > 0 {
        return Work::BusyFrame(seat);
    }
    core.set_first(found);
    core.set_spent(1);
    core.set_line(Line::Register {
        seat,
        reg: 0,
        stage: Stage::Read,
    });
    Work::Useful
}

/// Goes on with a register of the frame.
#[tactic(auto, unfolding(hk_core::specs::Collect::event_at_line, hk_core::specs::Collect::took_at_line, hk_core::specs::Collect::work_at_line, hk_core::specs::Collect::register_event, hk_core::specs::Collect::register_took, hk_core::specs::Event::fired_if, hk_core::specs::Event::learnt))]
pub fn register(core: &mut Core, seat: u8, reg: u8, stage: Stage) -> Work
    requires register { IsRegister core.old.geometry seat reg }
    requires stage { RegisterFits core.old.geometry core.old.spot stage }
    requires spent { FewSpent core.old.spot }
    requires fires { Fires core.old (lines.Register seat reg stage) }
    ensures next { core.new ≡ next_at core.old (lines.Register seat reg stage) }
    ensures work { result ≡ work_at core.old (lines.Register seat reg stage) }
{
    match stage {
        Stage::Read => load_register(core, seat, reg),
        Stage::Claim => claim_register(core, seat, reg),
        Stage::Reserve => reserve_register(core, seat, reg),
        Stage::Tie => link_register(core, seat, reg),
        Stage::Write | Stage::Mark | Stage::Empty => Work::Useful,
    }
}

/// Loads a register: its object is claimed next, where it isn't null.
#[tactic(auto, unfolding(hk_core::specs::Collect::event_at_line, hk_core::specs::Collect::took_at_line, hk_core::specs::Collect::work_at_line, hk_core::specs::Collect::register_event, hk_core::specs::Collect::register_took, hk_core::specs::Event::fired_if, hk_core::specs::Event::learnt))]
fn load_register(core: &mut Core, seat: u8, reg: u8) -> Work
    requires register { IsRegister core.old.geometry seat reg }
    requires spent { FewSpent core.old.spot }
    requires fires { Fires core.old (lines.Register seat reg stages.Read) }
    ensures next { core.new ≡ next_at core.old (lines.Register seat reg stages.Read) }
    ensures work { result ≡ work_at core.old (lines.Register seat reg stages.Read) }
{
    let g = core.geometry();
    let spent = core.spot().spent;
    let word = core.register_at(seat, reg);
    let found = core.fire(Event::Load(word));
    core.set_cell(found);
    core.set_spent(spent + 1);
    core.set_line(if found == 0 {
        after_register(&g, seat, reg)
    } else {
        Line::Register {
            seat,
            reg,
            stage: Stage::Claim,
        }
    });
    Work::Useful
}

/// Claims the object of a register: a place is reserved next, where the collector is the first.
#[tactic(auto, unfolding(hk_core::specs::Collect::event_at_line, hk_core::specs::Collect::took_at_line, hk_core::specs::Collect::work_at_line, hk_core::specs::Collect::register_event, hk_core::specs::Collect::register_took, hk_core::specs::Event::fired_if, hk_core::specs::Event::learnt))]
fn claim_register(core: &mut Core, seat: u8, reg: u8) -> Work
    requires register { IsRegister core.old.geometry seat reg }
    requires number { NamesNumber core.old.geometry core.old.spot.cell }
    requires spent { FewSpent core.old.spot }
    requires fires { Fires core.old (lines.Register seat reg stages.Claim) }
    ensures next { core.new ≡ next_at core.old (lines.Register seat reg stages.Claim) }
    ensures work { result ≡ work_at core.old (lines.Register seat reg stages.Claim) }
{
    let g = core.geometry();
    let spot = core.spot();
    let mark = claim(core);
    core.set_spent(spot.spent + 1);
    core.set_line(if mark < spot.cycle {
        Line::Register {
            seat,
            reg,
            stage: Stage::Reserve,
        }
    } else {
        after_register(&g, seat, reg)
    });
    Work::Useful
}

/// Reserves a place for the object of a register: it is linked next, where it fits.
#[tactic(auto, unfolding(hk_core::specs::Collect::event_at_line, hk_core::specs::Collect::took_at_line, hk_core::specs::Collect::work_at_line, hk_core::specs::Collect::register_event, hk_core::specs::Collect::register_took, hk_core::specs::Event::fired_if, hk_core::specs::Event::learnt))]
fn reserve_register(core: &mut Core, seat: u8, reg: u8) -> Work
    requires register { IsRegister core.old.geometry seat reg }
    requires spent { FewSpent core.old.spot }
    requires fires { Fires core.old (lines.Register seat reg stages.Reserve) }
    ensures next { core.new ≡ next_at core.old (lines.Register seat reg stages.Reserve) }
    ensures work { result ≡ work_at core.old (lines.Register seat reg stages.Reserve) }
{
    let g = core.geometry();
    let spot = core.spot();
    let offset = reserve(core);
    core.set_offset(offset);
    core.set_spent(spot.spent + 1);
    core.set_line(if reserved_fits(&g, offset, spot.cell) {
        Line::Register {
            seat,
            reg,
            stage: Stage::Tie,
        }
    } else {
        after_register(&g, seat, reg)
    });
    Work::Useful
}

/// Links the object of a register.
#[tactic(auto, unfolding(hk_core::specs::Collect::event_at_line, hk_core::specs::Collect::took_at_line, hk_core::specs::Collect::work_at_line, hk_core::specs::Collect::register_event, hk_core::specs::Collect::register_took, hk_core::specs::Event::fired_if, hk_core::specs::Event::learnt))]
fn link_register(core: &mut Core, seat: u8, reg: u8) -> Work
    requires register { IsRegister core.old.geometry seat reg }
    requires offset { core.old.spot.offset < space_words core.old.geometry }
    requires spent { FewSpent core.old.spot }
    requires fires { Fires core.old (lines.Register seat reg stages.Tie) }
    ensures next { core.new ≡ next_at core.old (lines.Register seat reg stages.Tie) }
    ensures work { result ≡ work_at core.old (lines.Register seat reg stages.Tie) }
{
    let g = core.geometry();
    let spent = core.spot().spent;
    link(core);
    core.set_spent(spent + 1);
    core.set_line(after_register(&g, seat, reg));
    Work::Useful
}

/// Blackens a frame, where its word is still the one that the attempt loaded.
#[tactic(auto, unfolding(hk_core::specs::Collect::event_at_line, hk_core::specs::Collect::took_at_line, hk_core::specs::Collect::work_at_line, hk_core::specs::Collect::frame_trade_event, hk_core::specs::Collect::frame_trade_took, hk_core::specs::Collect::frame_trade_work, hk_core::specs::Event::fired_if, hk_core::specs::Event::learnt))]
pub fn frame_trade(core: &mut Core, seat: u8) -> Work
    requires seat { seat < tasks core.old.geometry }
    requires spent { FewSpent core.old.spot }
    requires cycle { core.old.spot.cycle ≤ last_cycle }
    requires fires { Fires core.old (lines.FrameTrade seat) }
    ensures next { core.new ≡ next_at core.old (lines.FrameTrade seat) }
    ensures work { result ≡ work_at core.old (lines.FrameTrade seat) }
{
    let g = core.geometry();
    let spot = core.spot();
    let word = core.frame_at(seat);
    let found = core.fire(Event::Trade {
        word,
        current: spot.first,
        new: frame_blackened(spot.first, spot.cycle as u32),
    });
    if found == spot.first {
        core.set_line(after_frame(&g, seat));
        Work::Useful
    } else {
        core.set_line(Line::Frame(seat));
        Work::Lost(spot.spent + 1)
    }
}
