//! The step of the collector: one event, and what the spot takes from it.
ghost use Rattle.std.specs.Prelude.{◌≡◌};
ghost use Rattle.hk_model.specs.History.{History};
ghost use Rattle.hk_core.specs.Event.{CanFireIf};
ghost use Rattle.hk_core.specs.Collect.{next_collected, work_by_collector, event_by_collector};
ghost use Rattle.hk_core.specs.Lawful.{Lawful, IsLawful};
ghost use Rattle.hk_collect.specs.SpotFits.{SpotFits};
ghost use Rattle.hk_collect.specs.Works.{HasCauses};

use crate::frames::{frame, frame_trade, register, rest};
use crate::numbers::{clear, pass, pass_head, reset, sweep};
use crate::objects::{cell, link_word, look, object_trade, scan};
use hk_core::{Core, Line, Work};

/// Does the next event of the collector, and answers what it did. The machine is lawful for each history for which it was:
/// the collector leaves the history as it is. Each answer comes exactly where its cause is there, read of the word that the
/// event found.
pub fn step(core: &mut Core) -> Work
    requires lawful { IsLawful core.old }
    ensures next { core.new ≡ next_collected core.old }
    ensures work { result ≡ work_by_collector core.old }
    ensures lawful { (history : History) → Lawful core.old history → Lawful core.new history }
    ensures causes { HasCauses core.old result }
{
    advance(core)
}

/// Does the next event of the collector: that of the line which its spot is at.
#[tactic(auto, unfolding(hk_core::specs::Collect::next_collected, hk_core::specs::Collect::work_by_collector, hk_core::specs::Collect::event_by_collector, hk_core::specs::Collect::found_by_collector, hk_core::specs::Collect::spot_event, hk_core::specs::Collect::spot_took, hk_core::specs::Collect::spot_work))]
pub fn advance(core: &mut Core) -> Work
    requires fits { SpotFits core.old.geometry core.old.spot }
    requires can_fire { CanFireIf core.old.row (event_by_collector core.old) }
    ensures next { core.new ≡ next_collected core.old }
    ensures work { result ≡ work_by_collector core.old }
{
    match core.spot().line {
        Line::Rest => rest(core),
        Line::Frame(seat) => frame(core, seat),
        Line::Register { seat, reg, stage } => register(core, seat, reg, stage),
        Line::FrameTrade(seat) => frame_trade(core, seat),
        Line::Scan => scan(core),
        Line::Link => link_word(core),
        Line::Look => look(core),
        Line::Cell { index, stage } => cell(core, index, stage),
        Line::ObjectTrade => object_trade(core),
        Line::Pass(number) => pass(core, number),
        Line::PassHead(number) => pass_head(core, number),
        Line::Sweep { number, stage } => sweep(core, number, stage),
        Line::Clear(word) => clear(core, word),
        Line::Reset => reset(core),
    }
}
