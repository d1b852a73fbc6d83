//! Sections as words tell them, by the names of their tasks.
ghost use Rattle.std.specs.Prelude.{◌≡◌, ℕ, ◌<◌, ◌≤◌, List, length, map, take, bytes_eq};
ghost use Rattle.hk_sheet.specs.declared.sheet.High.{High};
ghost use Rattle.hk_ceiling.specs.Told.{place_of, numbered, all_numbered};

use crate::ceilings::{MAX_SECTIONS, TaskSection};
use hk_sheet::{High, Name};
use std::marker::Model;

/// A critical section: the jobs of the task of this name hold the resource `res` in their ticks `start` to
/// `start + len - 1`, counted from 0 over the ticks that a job gets.
#[derive(Debug, Drop)]
pub struct Section {
    pub name: Name,
    pub res: u8,
    pub start: u32,
    pub len: u32,
}

/// Sections. A contract sees the list.
#[derive(Debug, Drop)]
pub struct Sections {
    pub items: Vec<Section>,
}

impl Model for Sections {
    ghost use Rattle.std.specs.Prelude.{List};
    ghost use Rattle.hk_ceiling.specs.declared.told.Section.{Section};

    ghost Value = { List Section };

    ghost view = { λ s. s.items.items };
}

/// Whether the task has this name.
fn is_named(task: &High, name: &Name) -> bool
    ensures { result ≡ bytes_eq task.now.name name.now }
{
    let own = &task.name.items[..];
    let other = &name.items[..];
    own == other
}

/// The place of the high task of this name, or how many there are where none has it.
fn place_of(tasks: &[High], name: &Name) -> usize
    ensures value { result ≡ place_of tasks.now name.now }
    ensures within { result ≤ length tasks.now }
{
    for (place, task) in tasks.iter().enumerate() {
        if is_named(task, name) {
            return place;
        }
    }
    tasks.len()
}

/// The section with its task's place for the name.
fn numbered(tasks: &[High], section: &Section) -> TaskSection
    requires { length tasks.now ≤ 31 }
    ensures { result ≡ numbered tasks.now section.now }
{
    TaskSection {
        task: place_of(tasks, &section.name) as u8,
        res: section.res,
        start: section.start,
        len: section.len,
    }
}

/// All of them.
pub(crate) fn all_numbered(tasks: &[High], sections: &[Section]) -> [TaskSection; MAX_SECTIONS]
    requires tasks { length tasks.now ≤ 31 }
    requires sections { length sections.now ≤ 64 }
    ensures { take (length sections.now) result ≡ all_numbered tasks.now sections.now }
{
    let mut all = [TaskSection {
        task: 0,
        res: 0,
        start: 0,
        len: 0,
    }; MAX_SECTIONS];
    for (q, section) in sections.iter().enumerate() {
        all[q] = numbered(tasks, section);
    }
    all
}
