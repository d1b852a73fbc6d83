//! What is written of a session while it runs, in tests.
use crate::{Chore, End, Who};
use hk_sheet::{Name, Sheet};
use std::alloc::{AllocError, Global};

/// The lines that are written while a session runs.
#[derive(Drop)]
pub(crate) struct Written {
    pub report: String,
    pub ticks: String,
    /// Who has the present stretch of ticks, and since when.
    stretch: Option<(Who, u64)>,
}

/// Adds a line to a text.
pub(crate) fn add(text: &mut String, line: Result<String, AllocError>) -> Result<(), AllocError> {
    text.push_str(line?.as_str())?;
    text.push_str("\n")
}

/// A name as text.
pub(crate) fn name(name: &Name) -> &str {
    str::from_utf8(&name.items).unwrap_or("?")
}

/// The name of a task.
pub(crate) fn name_of(sheet: &Sheet, who: Who) -> &str {
    match who {
        Who::Hi(place) => match sheet.high.items.get(place as usize) {
            Some(task) => name(&task.name),
            None => "no high task",
        },
        Who::Lo(place) => match sheet.low.items.get(place as usize) {
            Some(task) => name(&task.name),
            None => "no low task",
        },
        Who::Gc(_) => "collector",
        Who::Idle => "idle",
    }
}

/// The same with nothing said of the event.
fn plain(who: Who) -> Who {
    match who {
        Who::Gc(_) => Who::Gc(Chore::Step),
        other => other,
    }
}

impl Written {
    /// What was written before stands in front of the report.
    pub fn new(alloc: Global, report: String) -> Written {
        Written {
            report,
            ticks: String::new(alloc),
            stretch: None,
        }
    }

    /// Ends the present stretch before a tick, where another has the tick.
    pub fn end_stretch(
        &mut self,
        alloc: Global,
        sheet: &Sheet,
        who: Option<Who>,
        tick: u64,
    ) -> Result<(), AllocError> {
        if let Some((last, first)) = self.stretch {
            if who == Some(last) {
                return Ok(());
            }
            let name = name_of(sheet, last);
            let end = tick.saturating_sub(1);
            add(
                &mut self.ticks,
                format!(in alloc; "{name} {first} to {end}"),
            )?;
        }
        self.stretch = who.map(|who| (who, tick));
        Ok(())
    }

    /// Writes what an event of the collector was.
    fn chore(&mut self, alloc: Global, chore: Chore, tick: u64) -> Result<(), AllocError> {
        match chore {
            Chore::Step => Ok(()),
            Chore::Flip => add(&mut self.ticks, format!(in alloc; "flip {tick}")),
            Chore::Lost(events) => {
                add(&mut self.ticks, format!(in alloc; "lost {tick} {events}"))
            }
        }
    }

    /// Writes a tick that was given.
    pub fn ran(
        &mut self,
        alloc: Global,
        sheet: &Sheet,
        tick: u64,
        who: Who,
        out: Option<u64>,
        end: Option<End>,
    ) -> Result<(), AllocError> {
        self.end_stretch(alloc, sheet, Some(plain(who)), tick)?;
        if let Who::Gc(chore) = who {
            self.chore(alloc, chore, tick)?;
        }
        let name = name_of(sheet, who);
        if let Some(value) = out {
            add(
                &mut self.report,
                format!(in alloc; "out {tick} {name} {value}"),
            )?;
        }
        if let Some(
            End {
                job,
                ticks: _,
                fault: Some(fault),
            },
        ) = end
        {
            let statement = fault.statement;
            let why = if fault.nil { "nil" } else { "field" };
            add(
                &mut self.report,
                format!(in alloc; "fault {tick} {name} {job} {statement} {why}"),
            )?;
        }
        Ok(())
    }
}
