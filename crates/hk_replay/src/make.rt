//! A log of actions that are drawn.
ghost use Rattle.std.specs.Prelude.{◌≡◌, IfOk};
ghost use Rattle.hk_replay.specs.Answers.{answered, core_after};
ghost use Rattle.hk_replay.specs.Making.{action_drawn, after_action, made_geometry, made_log};

use crate::draws::drawn_call;
use crate::log_line::LogLine;
use crate::machine::Machine;
use crate::printing::{heading_line, text_of};
use hk_core::Memory;
use hk_words::{Draws, Geometry, Shape};
use std::alloc::Global;

/// The actions of a log that is made.
const ACTIONS: u32 = 20_000;

/// The heap of a log that is made.
fn heap() -> Geometry
    ensures { result ≡ made_geometry }
{
    Geometry::laid_out((64, 64, 16), (2, 1), 8, Shape { refs: 2, nums: 1 })
}

/// Draws an action, does it, and answers its line, if there is one.
#[tactic(auto, unfolding(crate::specs::Making::action_drawn, crate::specs::Making::after_action))]
fn drawn_line(machine: &mut Machine, draws: &mut Draws) -> Option<LogLine>
    ensures line { result ≡ answered machine.old (action_drawn machine.old draws.old.state) }
    ensures machine { machine.new ≡ core_after machine.old (action_drawn machine.old draws.old.state) }
    ensures draws { draws.new.state ≡ after_action machine.old draws.old.state }
{
    let seat = draws.below(5) as u8;
    if seat >= 3 {
        let answer = machine.collect();
        return Some(LogLine::Collect { answer });
    }
    if machine.is_busy(seat) {
        machine.step_line(seat)
    } else {
        let call = drawn_call(draws);
        machine.begin_line(seat, call)
    }
}

/// The log for a number, which is the first state of the draws.
#[tactic(auto, unfolding(crate::specs::Making::made_log))]
pub fn make(alloc: Global, number: u64) -> Result<Vec<u8>, Memory>
    ensures { IfOk result (λ log. log.items ≡ made_log number) }
{
    let mut machine = Machine::open(alloc, heap())?;
    let mut draws = Draws { state: number };
    let mut log = Vec::new(alloc);
    log.extend_from_slice(heading_line().bytes())?;
    for _ in 0..ACTIONS {
        if let Some(line) = drawn_line(&mut machine, &mut draws) {
            log.extend_from_slice(text_of(&line).bytes())?;
        }
    }
    Ok(log)
}
