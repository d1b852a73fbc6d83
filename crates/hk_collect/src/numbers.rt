//! The pass over the marks, the sweep, the clearing of the old space and the end of the cycle: each function does the event
//! of one line, in the sweep of one stage.
ghost use Rattle.std.specs.Prelude.{◌≡◌, ◌<◌, ◌≤◌};
ghost use Rattle.hk_words.specs.Geometry.{numbers, list_length, space_words};
ghost use Rattle.hk_core.specs.Collect.{last_cycle};
ghost use Rattle.hk_core.specs.declared.spot.Line.TheVariants as lines;
ghost use Rattle.hk_core.specs.declared.spot.Stage.TheVariants as stages;
ghost use Rattle.hk_collect.specs.AtLine.{next_at, work_at, Fires};
ghost use Rattle.hk_collect.specs.SpotFits.{SweepFits};

use crate::decide::old_space;
use crate::follow::{after_pass, is_old};
use hk_core::{Core, Event, Line, Stage, Work};

/// Loads the mark of a number: its header is loaded next, where it was claimed in this cycle.
#[tactic(auto, unfolding(hk_core::specs::Collect::event_at_line, hk_core::specs::Collect::took_at_line, hk_core::specs::Collect::work_at_line, hk_core::specs::Collect::pass_event, hk_core::specs::Collect::pass_took, hk_core::specs::Event::fired_if, hk_core::specs::Event::learnt))]
pub fn pass(core: &mut Core, number: u32) -> Work
    requires number { number < numbers core.old.geometry }
    requires fires { Fires core.old (lines.Pass number) }
    ensures next { core.new ≡ next_at core.old (lines.Pass number) }
    ensures work { result ≡ work_at core.old (lines.Pass number) }
{
    let g = core.geometry();
    let cycle = core.spot().cycle;
    let word = core.mark_at(number);
    let mark = core.fire(Event::Load(word));
    core.set_line(if mark == cycle {
        Line::PassHead(number)
    } else {
        after_pass(&g, number)
    });
    Work::Useful
}

/// Loads the header of a number that was claimed: the scan goes on, where its object isn't moved yet.
#[tactic(auto, unfolding(hk_core::specs::Collect::event_at_line, hk_core::specs::Collect::took_at_line, hk_core::specs::Collect::work_at_line, hk_core::specs::Collect::pass_head_event, hk_core::specs::Collect::pass_head_took, hk_core::specs::Collect::pass_head_work, hk_core::specs::Event::fired_if, hk_core::specs::Event::learnt))]
pub fn pass_head(core: &mut Core, number: u32) -> Work
    requires number { number < numbers core.old.geometry }
    requires cycle { core.old.spot.cycle ≤ last_cycle }
    requires fires { Fires core.old (lines.PassHead number) }
    ensures next { core.new ≡ next_at core.old (lines.PassHead number) }
    ensures work { result ≡ work_at core.old (lines.PassHead number) }
{
    let g = core.geometry();
    let spot = core.spot();
    let word = core.header_at(number);
    let header = core.fire(Event::Load(word));
    if is_old(&spot, &g, header) {
        core.set_line(Line::Scan);
        Work::Grey(number)
    } else {
        core.set_line(after_pass(&g, number));
        Work::Useful
    }
}

/// Goes on with a number of the sweep.
#[tactic(auto, unfolding(hk_core::specs::Collect::event_at_line, hk_core::specs::Collect::took_at_line, hk_core::specs::Collect::work_at_line, hk_core::specs::Collect::sweep_event, hk_core::specs::Collect::sweep_took, hk_core::specs::Event::fired_if, hk_core::specs::Event::learnt))]
pub fn sweep(core: &mut Core, number: u32, stage: Stage) -> Work
    requires number { number < numbers core.old.geometry }
    requires stage { SweepFits core.old.geometry core.old.spot stage }
    requires cycle { core.old.spot.cycle ≤ last_cycle }
    requires fires { Fires core.old (lines.Sweep number stage) }
    ensures next { core.new ≡ next_at core.old (lines.Sweep number stage) }
    ensures work { result ≡ work_at core.old (lines.Sweep number stage) }
{
    match stage {
        Stage::Read => load_mark(core, number),
        Stage::Write => write_entry(core, number),
        Stage::Mark => mark_ahead(core, number),
        Stage::Empty => empty_header(core, number),
        Stage::Claim | Stage::Reserve | Stage::Tie => Work::Useful,
    }
}

/// Loads the mark of a number: it goes on the list of the next cycle, where it is free.
#[tactic(auto, unfolding(hk_core::specs::Collect::event_at_line, hk_core::specs::Collect::took_at_line, hk_core::specs::Collect::work_at_line, hk_core::specs::Collect::sweep_event, hk_core::specs::Collect::sweep_took, hk_core::specs::Event::fired_if, hk_core::specs::Event::learnt))]
fn load_mark(core: &mut Core, number: u32) -> Work
    requires number { number < numbers core.old.geometry }
    requires fires { Fires core.old (lines.Sweep number stages.Read) }
    ensures next { core.new ≡ next_at core.old (lines.Sweep number stages.Read) }
    ensures work { result ≡ work_at core.old (lines.Sweep number stages.Read) }
{
    let cycle = core.spot().cycle;
    let word = core.mark_at(number);
    let mark = core.fire(Event::Load(word));
    core.set_line(if mark < cycle {
        Line::Sweep {
            number,
            stage: Stage::Write,
        }
    } else {
        Line::Sweep {
            number: number + 1,
            stage: Stage::Read,
        }
    });
    Work::Useful
}

/// Writes a free number on the list of the next cycle.
#[tactic(auto, unfolding(hk_core::specs::Collect::event_at_line, hk_core::specs::Collect::took_at_line, hk_core::specs::Collect::work_at_line, hk_core::specs::Collect::sweep_event, hk_core::specs::Collect::sweep_took, hk_core::specs::Event::fired_if, hk_core::specs::Event::learnt))]
fn write_entry(core: &mut Core, number: u32) -> Work
    requires number { number < numbers core.old.geometry }
    requires entries { core.old.spot.entries < list_length core.old.geometry }
    requires cycle { core.old.spot.cycle ≤ last_cycle }
    requires fires { Fires core.old (lines.Sweep number stages.Write) }
    ensures next { core.new ≡ next_at core.old (lines.Sweep number stages.Write) }
    ensures work { result ≡ work_at core.old (lines.Sweep number stages.Write) }
{
    let spot = core.spot();
    let word = core.entry_at(old_space(spot.cycle), spot.entries);
    core.fire(Event::Write(word, u64::from(number)));
    core.set_entries(spot.entries + 1);
    core.set_line(Line::Sweep {
        number,
        stage: Stage::Mark,
    });
    Work::Useful
}

/// Marks a free number for the next cycle.
#[tactic(auto, unfolding(hk_core::specs::Collect::event_at_line, hk_core::specs::Collect::took_at_line, hk_core::specs::Collect::work_at_line, hk_core::specs::Collect::sweep_event, hk_core::specs::Collect::sweep_took, hk_core::specs::Event::fired_if, hk_core::specs::Event::learnt))]
fn mark_ahead(core: &mut Core, number: u32) -> Work
    requires number { number < numbers core.old.geometry }
    requires cycle { core.old.spot.cycle ≤ last_cycle }
    requires fires { Fires core.old (lines.Sweep number stages.Mark) }
    ensures next { core.new ≡ next_at core.old (lines.Sweep number stages.Mark) }
    ensures work { result ≡ work_at core.old (lines.Sweep number stages.Mark) }
{
    let cycle = core.spot().cycle;
    let word = core.mark_at(number);
    core.fire(Event::Write(word, cycle + 1));
    core.set_line(Line::Sweep {
        number,
        stage: Stage::Empty,
    });
    Work::Useful
}

/// Empties the header of a free number: the clearing comes next, where the list is full.
#[tactic(auto, unfolding(hk_core::specs::Collect::event_at_line, hk_core::specs::Collect::took_at_line, hk_core::specs::Collect::work_at_line, hk_core::specs::Collect::sweep_event, hk_core::specs::Collect::sweep_took, hk_core::specs::Event::fired_if, hk_core::specs::Event::learnt))]
fn empty_header(core: &mut Core, number: u32) -> Work
    requires number { number < numbers core.old.geometry }
    requires fires { Fires core.old (lines.Sweep number stages.Empty) }
    ensures next { core.new ≡ next_at core.old (lines.Sweep number stages.Empty) }
    ensures work { result ≡ work_at core.old (lines.Sweep number stages.Empty) }
{
    let g = core.geometry();
    let entries = core.spot().entries;
    let word = core.header_at(number);
    core.fire(Event::Write(word, 0));
    core.set_line(if entries < g.alloc() / 2 {
        Line::Sweep {
            number: number + 1,
            stage: Stage::Read,
        }
    } else {
        Line::Clear(0)
    });
    Work::Useful
}

/// Sets a word of the old space to 0.
#[tactic(auto, unfolding(hk_core::specs::Collect::event_at_line, hk_core::specs::Collect::took_at_line, hk_core::specs::Collect::work_at_line, hk_core::specs::Collect::clear_event, hk_core::specs::Collect::clear_took, hk_core::specs::Event::fired_if, hk_core::specs::Event::learnt))]
pub fn clear(core: &mut Core, word: u32) -> Work
    requires word { word < space_words core.old.geometry }
    requires cycle { core.old.spot.cycle ≤ last_cycle }
    requires fires { Fires core.old (lines.Clear word) }
    ensures next { core.new ≡ next_at core.old (lines.Clear word) }
    ensures work { result ≡ work_at core.old (lines.Clear word) }
{
    let g = core.geometry();
    let place = g.place_at(old_space(core.spot().cycle), word);
    let cleared = core.space_at(place);
    core.fire(Event::Write(cleared, 0));
    core.set_line(if word + 1 < g.live() + g.alloc() {
        Line::Clear(word + 1)
    } else {
        Line::Reset
    });
    Work::Useful
}

/// Sets the words that are reserved to 0, which ends the cycle.
#[tactic(auto, unfolding(hk_core::specs::Collect::event_at_line, hk_core::specs::Collect::took_at_line, hk_core::specs::Collect::work_at_line, hk_core::specs::Collect::reset_event, hk_core::specs::Event::fired_if, hk_core::specs::Event::learnt))]
pub fn reset(core: &mut Core) -> Work
    requires fires { Fires core.old lines.Reset }
    ensures next { core.new ≡ next_at core.old lines.Reset }
    ensures work { result ≡ work_at core.old lines.Reset }
{
    let g = core.geometry();
    core.fire(Event::Write(g.w1_at(), 0));
    core.set_line(Line::Rest);
    Work::Useful
}
