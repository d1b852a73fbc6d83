//! The choice by ceilings among the high jobs that are ready.
ghost use Rattle.std.specs.Prelude.{◌≡◌, ℕ, ◌+◌, ◌<◌, ◌≤◌, List, length, take};
ghost use Rattle.hk_plan.specs.declared.Ready.{Ready};
ghost use Rattle.hk_ceiling.specs.Choice.{level_of_row, is_in_section, goes_before_at, by_ceilings};

use crate::ceilings::{MAX_SECTIONS, TaskSection, ceiling, inside_at};
use hk_dispatch::{Pick, Ready};
use std::marker::Model;

/// The level of a ready job, and whether it is inside a section.
fn level(sections: &[TaskSection], row: Ready) -> (u8, bool)
    ensures level { result.0 ≡ level_of_row sections.now row }
    ensures inside { result.1 ≡ is_in_section sections.now row }
{
    match inside_at(sections, row.task, row.done) {
        None => (row.task, false),
        Some(q) => (ceiling(sections, q), true),
    }
}

/// Whether a job of the first level goes before one of the second; each is told with whether it is inside a section.
fn goes_before(first: (u8, bool), second: (u8, bool)) -> bool
    ensures { result ≡ goes_before_at first.0 first.1 second.0 second.1 }
{
    first.0 < second.0 || (first.0 == second.0 && (first.1 && !second.1))
}

/// The place of the row that the choice by ceilings chooses.
#[tactic(auto, unfolding(crate::specs::Choice::best_below))]
pub(crate) fn best(sections: &[TaskSection], rows: &[Ready]) -> usize
    requires { 0 < length rows.now }
    ensures value { result ≡ by_ceilings sections.now rows.now }
    ensures within { result < length rows.now }
{
    let mut best = 0;
    let mut level_of_best = level(sections, rows[0]);
    for (n, row) in rows.iter().enumerate() {
        let own = level(sections, *row);
        if goes_before(own, level_of_best) {
            best = n;
            level_of_best = own;
        }
    }
    best
}

/// The choice by immediate ceilings: the row of the least level, among rows of one level one whose job is inside a section,
/// and then the first. A contract sees the list of the sections.
#[derive(Debug, Drop)]
pub struct Ceiling {
    sections: [TaskSection; MAX_SECTIONS],
    count: usize,
}

impl Model for Ceiling {
    ghost use Rattle.std.specs.Prelude.{List};
    ghost use Rattle.hk_ceiling.specs.declared.ceilings.TaskSection.{TaskSection};

    ghost Value = { List TaskSection };

    ghost use Rattle.std.specs.Prelude.{◌≤◌, take};

    ghost view = { λ c. take c.count c.sections };

    ghost invariant = { λ c. c.count ≤ 64 };
}

impl Ceiling {
    /// The choice by these sections.
    pub(crate) fn by(sections: &[TaskSection]) -> Ceiling
        requires { length sections.now ≤ 64 }
        ensures { result ≡ sections.now }
    {
        let none = TaskSection {
            task: 0,
            res: 0,
            start: 0,
            len: 0,
        };
        let mut all = [none; MAX_SECTIONS];
        all[..sections.len()].copy_from_slice(sections);
        Ceiling {
            sections: all,
            count: sections.len(),
        }
    }
}

impl Pick for Ceiling {
    ghost use Rattle.hk_ceiling.specs.Choice.{by_ceilings};

    ghost choice = { λ sections rows. by_ceilings sections rows };

    ghost use Rattle.hk_ceiling.specs.Chooses.{by_ceilings_chooses};

    ghost chooses = { by_ceilings_chooses };

    fn pick(&self, ready: &[Ready]) -> usize {
        best(&self.sections[..self.count], ready)
    }
}
