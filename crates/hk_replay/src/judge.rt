//! What a text comes to, as a log.
ghost use Rattle.std.specs.Prelude.{◌≡◌, ◌≤◌, length, IfOk};
ghost use Rattle.hk_words.specs.Geometry.{tasks};
ghost use Rattle.hk_core.specs.State.{opening};
ghost use Rattle.hk_io.specs.Limits.{longest_input};
ghost use Rattle.hk_replay.specs.Judged.{IsVerdict, IsVerdictOfLines};
ghost use Rattle.hk_replay.specs.Text.{lines_of};
ghost use Rattle.hk_replay.specs.Spelling.{Opens};

use crate::lex::{first_line, words_of};
use crate::machine::Machine;
use crate::reading::{geometry, heading, log_line};
use hk_core::Memory;
use hk_words::Geometry;
use std::alloc::Global;

/// What a text comes to. Lines are counted from 1.
#[derive(Clone, Copy, Debug, PartialEq, Eq)]
pub enum Verdict {
    /// It is a log of so many lines, each of which is the one for its action.
    Whole(u64),
    /// Each line is of its form; the first one that isn't the one for its action.
    Differs(u64),
    /// The first line that isn't of its form.
    Log(u64),
}

/// What the lines behind the first one of a log come to.
fn judge_lines(
    alloc: Global,
    machine: &mut Machine,
    g: &Geometry,
    text: &[u8],
) -> Result<Verdict, Memory>
    requires opened { machine.old ≡ opening g.now }
    requires short { length text.now ≤ longest_input }
    ensures { IfOk result (IsVerdictOfLines g.now (lines_of text.now)) }
{
    let mut rest = text;
    let mut count: u64 = 1;
    let mut differing: Option<u64> = None;
    while !rest.is_empty() {
        let (line, behind) = first_line(rest);
        let words = words_of(alloc, line)?;
        count += 1;
        let Some(said) = log_line(g.tasks(), &words) else {
            return Ok(Verdict::Log(count));
        };
        if differing.is_none() && !machine.answers(&said) {
            differing = Some(count);
        }
        rest = behind;
    }
    match differing {
        Some(number) => Ok(Verdict::Differs(number)),
        None => Ok(Verdict::Whole(count)),
    }
}

/// What a text comes to as a log. A line that isn't of its form goes before one that isn't the one for its action.
pub fn judge(alloc: Global, text: &[u8]) -> Result<Verdict, Memory>
    requires { length text.now ≤ longest_input }
    ensures { IfOk result (IsVerdict text.now) }
{
    if text.is_empty() {
        return Ok(Verdict::Log(1));
    }
    let (first, rest) = first_line(text);
    let words = words_of(alloc, first)?;
    let Some(heading) = heading(&words) else {
        return Ok(Verdict::Log(1));
    };
    let Some(g) = geometry(&heading) else {
        return Ok(Verdict::Log(1));
    };
    let mut machine = Machine::open(alloc, g)?;
    judge_lines(alloc, &mut machine, &g, rest)
}
