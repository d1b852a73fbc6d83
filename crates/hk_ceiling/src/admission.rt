//! Admission of a sheet with sections.

ghost use Rattle.std.specs.Prelude.{◌≡◌, ℕ, ◌<◌, ◌≤◌, List, All, length, map, take, IfOk, MatchResult, MatchOption};
ghost use Rattle.hk_sheet.specs.Valid.{IsSheet};
ghost use Rattle.hk_admit.specs.Analysis.{timings_of};
ghost use Rattle.hk_admit.specs.Ranges.{IsInRange};
ghost use Rattle.hk_ceiling.specs.Bounds.{AreStill};
ghost use Rattle.hk_ceiling.specs.Order.{IsFirstWrong};
ghost use Rattle.hk_ceiling.specs.Told.{all_numbered};
ghost use Rattle.hk_ceiling.specs.Admission.{AreResponses, NoSectionWrong, AreTimes, IsFirstMoved, IsMovedRefusal, IsLateRefusal, IsTimesRefusal, IsCeilRefusal};

use crate::admitted::Held;
use crate::ceilings::TaskSection;
use crate::choice::Ceiling;
use crate::order::first_wrong;
use crate::refused::CeilRefused;
use crate::responses::response;
use crate::told::{Section, Sections, all_numbered};
use hk_admit::{Checked, Refused, check_heap};
use hk_rta::Timing;
use hk_sheet::{High, Name, Sheet, Ticks};
use std::alloc::{AllocError, Global};

/// The times of the high tasks.
fn timings(alloc: Global, tasks: &[High]) -> Result<Vec<Timing>, AllocError>
    ensures { IfOk result (λ v. v.items ≡ timings_of tasks.now) }
{
    tasks.iter().map(|task| task.timing).collect(alloc)
}

/// A copy of a name.
fn name_of(alloc: Global, name: &Name) -> Result<Name, AllocError>
    ensures { IfOk result (λ copy. copy ≡ name.now) }
{
    Ok(Name {
        items: Vec::from_slice(alloc, &name.items)?,
    })
}

/// A copy of a section.
fn section_of(alloc: Global, section: &Section) -> Result<Section, AllocError>
    ensures { IfOk result (λ copy. copy ≡ section.now) }
{
    Ok(Section {
        name: name_of(alloc, &section.name)?,
        res: section.res,
        start: section.start,
        len: section.len,
    })
}

/// A copy of all sections.
fn copy_of(alloc: Global, sections: &[Section]) -> Result<Sections, AllocError>
    ensures { IfOk result (λ copy. copy ≡ sections.now) }
{
    let mut items = Vec::new(alloc);
    for section in sections {
        items.push(section_of(alloc, section)?)?;
    }
    Ok(Sections { items })
}

/// The first high task with release jitter.
fn first_moved(tasks: &[High]) -> Option<usize>
    ensures { MatchOption result (AreStill (timings_of tasks.now)) (λ i. IsFirstMoved (timings_of tasks.now) i) }
{
    for (place, task) in tasks.iter().enumerate() {
        if task.timing.jitter != 0 {
            return Some(place);
        }
    }
    None
}

/// Whether no high task has release jitter, or the refusal of the first that has.
fn check_still(alloc: Global, tasks: &[High]) -> Result<(), CeilRefused>
    ensures { MatchResult result (λ _. AreStill (timings_of tasks.now)) (λ refused. IsMovedRefusal tasks.now refused) }
{
    match first_moved(tasks) {
        None => Ok(()),
        Some(place) => Err(CeilRefused::Jitter(name_of(alloc, &tasks[place].name)?)),
    }
}

/// The response time of each high task, or the first that has none within its deadline.
fn responses(alloc: Global, tasks: &[High], sections: &[TaskSection]) -> Result<Ticks, CeilRefused>
    requires few { length tasks.now ≤ 31 }
    requires tasks { All IsInRange tasks.now }
    requires still { AreStill (timings_of tasks.now) }
    ensures { MatchResult result (λ responses. AreResponses (timings_of tasks.now) sections.now responses) (λ refused. IsLateRefusal tasks.now sections.now refused) }
{
    let timings = timings(alloc, tasks)?;
    let mut items = Vec::new(alloc);
    for (place, task) in tasks.iter().enumerate() {
        match response(&timings, sections, place) {
            Some(ticks) => items.push(ticks)?,
            None => return Err(CeilRefused::Response(name_of(alloc, &task.name)?)),
        }
    }
    Ok(Ticks { items })
}

/// The first wrong section of the high tasks.
fn wrong_section(
    alloc: Global,
    tasks: &[High],
    sections: &[Section],
) -> Result<Option<usize>, AllocError>
    requires tasks { length tasks.now ≤ 31 }
    requires sections { length sections.now ≤ 64 }
    ensures { IfOk result (λ found. MatchOption found (NoSectionWrong tasks.now sections.now) (λ q. IsFirstWrong (timings_of tasks.now) (all_numbered tasks.now sections.now) q)) }
{
    let timings = timings(alloc, tasks)?;
    let numbered = all_numbered(tasks, sections);
    Ok(first_wrong(&timings, &numbered[..sections.len()]))
}

/// The response times of a sheet's high tasks with these sections, or why it is refused for its times.
fn times(alloc: Global, sheet: &Sheet, sections: &[Section]) -> Result<Ticks, CeilRefused>
    requires sheet { IsSheet sheet.now }
    requires sections { length sections.now ≤ 64 }
    ensures { MatchResult result (λ responses. AreTimes sheet.now sections.now responses) (λ refused. IsTimesRefusal sheet.now sections.now refused) }
{
    let tasks = &sheet.high.items[..];
    check_still(alloc, tasks)?;
    let numbered = all_numbered(tasks, sections);
    responses(alloc, tasks, &numbered[..sections.len()])
}

/// A sheet whose heap was checked, with its sections, of which none is wrong: admitted, or refused for its times.
fn held(alloc: Global, checked: Checked, sections: &[Section]) -> Result<Held, CeilRefused>
    requires sections { length sections.now ≤ 64 }
    requires none_wrong { NoSectionWrong checked.sheet.high sections.now }
    ensures { MatchResult result (λ held. (held.checked ≡ checked) × (held.sections ≡ sections.now)) (λ refused. IsTimesRefusal checked.sheet sections.now refused) }
{
    let responses = times(alloc, &checked.sheet, sections)?;
    let sections = copy_of(alloc, sections)?;
    Ok(Held {
        checked,
        sections,
        responses,
    })
}

/// Looks at a sheet with sections.
///
/// It is admitted exactly where no section is wrong, the check of the heap is `Ok`, no high task has release jitter, and each
/// has a response time that is at most its deadline. Otherwise the error is the first of these that fails, in the order of
/// [`CeilRefused`], or [`CeilRefused::Memory`], which may come at any sheet.
pub fn admit_ceiling(alloc: Global, sheet: Sheet, sections: &[Section]) -> Result<Held, CeilRefused>
    requires sheet { IsSheet sheet }
    requires sections { length sections.now ≤ 64 }
    ensures { MatchResult result (λ held. (held.checked.sheet ≡ sheet) × (held.sections ≡ sections.now)) (λ refused. IsCeilRefusal sheet sections.now refused) }
{
    if let Some(q) = wrong_section(alloc, &sheet.high.items, sections)? {
        return Err(CeilRefused::Section(q));
    }
    match check_heap(alloc, sheet) {
        Ok(checked) => held(alloc, checked, sections),
        Err(Refused::Memory) => Err(CeilRefused::Memory),
        Err(refused) => Err(CeilRefused::Heap(refused)),
    }
}

impl Ceiling {
    /// The choice by the sections of an admitted sheet. It takes no memory.
    pub fn of(held: &Held) -> Ceiling
        ensures { result ≡ all_numbered held.now.checked.sheet.high held.now.sections }
    {
        let sections = &held.sections.items[..];
        let numbered = all_numbered(&held.checked.sheet.high.items, sections);
        Ceiling::by(&numbered[..sections.len()])
    }
}
