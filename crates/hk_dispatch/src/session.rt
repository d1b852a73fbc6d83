//! Sessions: who gets each tick, and what it does.
ghost use Rattle.std.specs.Prelude.{◌≡◌, ◌+◌, ◌<◌, length, IfOk, is_none, nat_lt, if◌then◌else◌, ◌&&◌};
ghost use Rattle.hk_words.specs.Geometry.{HasSizes};
ghost use Rattle.hk_plan.specs.AloneBy.{least_task};
ghost use Rattle.hk_sheet.specs.Faults.{sizes_of};
ghost use Rattle.hk_dispatch.specs.Tasks.{tasks_of};
ghost use Rattle.hk_dispatch.specs.Moment.{course_at};
ghost use Rattle.hk_dispatch.specs.Session.{state, IsSession};
ghost use Rattle.hk_dispatch.specs.Told.{told};

use crate::pick::{First, Pick};
use crate::stand::Stand;
use crate::tick::Tick;
use hk_admit::{Admitted, Checked};
use hk_sheet::Ticks;
use hk_words::Memory;
use std::alloc::Global;
use std::marker::Model;

/// The session of a sheet whose heap was checked, by a choice among the ready high jobs.
///
/// Each tick goes, by the first rule that applies, to the ready high job that the choice names; to the low operation in
/// mid-course; to the collector, where it owes an event; to the first low task with a ready job; to nobody.
#[derive(Drop)]
pub struct SessionBy<P: Pick> {
    checked: Checked,
    pick: P,
    stand: Stand,
    /// The ticks that were given.
    given: u64,
}

impl<P: Pick> Model for SessionBy<P> {
    ghost use Rattle.hk_dispatch.specs.Opened.{Opened};

    ghost Value = { Opened P };

    ghost use Rattle.hk_dispatch.specs.Opened.{Stands};

    ghost view = { λ s. record { sheet = s.checked.sheet; work = s.checked.work; attempt = s.checked.attempt; busy = s.checked.busy; debt = s.checked.debt; geometry = s.stand.heap.geometry; pick = s.pick; given = s.given } };

    ghost invariant = { λ s. Stands (P.choice s.pick) s.checked.sheet s.given s.stand };
}

impl<P: Pick> SessionBy<P> {
    /// The session of a sheet before its first tick. Only this call takes memory.
    pub fn open(alloc: Global, checked: Checked, pick: P) -> Result<SessionBy<P>, Memory>
        ensures sheet { IfOk result (λ s. s.sheet ≡ checked.sheet) }
        ensures sizes { IfOk result (λ s. HasSizes s.geometry (sizes_of s.sheet)) }
        ensures numbers { IfOk result (λ s. (s.work ≡ checked.work) × (s.attempt ≡ checked.attempt) × (s.busy ≡ checked.busy) × (s.debt ≡ checked.debt)) }
        ensures pick { IfOk result (λ s. s.pick ≡ pick) }
        ensures given { IfOk result (λ s. s.given ≡ 0) }
    {
        let stand = Stand::open(alloc, &checked.sheet)?;
        Ok(SessionBy {
            checked,
            pick,
            stand,
            given: 0,
        })
    }

    /// What the session was opened with.
    pub fn checked(&self) -> &Checked
        ensures sheet { result.now.sheet ≡ self.now.sheet }
        ensures numbers { (result.now.work ≡ self.now.work) × (result.now.attempt ≡ self.now.attempt) × (result.now.busy ≡ self.now.busy) × (result.now.debt ≡ self.now.debt) }
        ensures session { IsSession self.now.geometry (P.choice self.now.pick) self.now.sheet self.now.work self.now.attempt self.now.busy self.now.debt }
    {
        &self.checked
    }

    /// Gives the next tick, and answers who got it and what it did. From the horizon on nothing is changed, nor once the
    /// collector found more words reserved than the space has for evacuation.
    pub fn tick(&mut self) -> Tick
        ensures answer { result ≡ told self.old.geometry (P.choice self.old.pick) self.old.sheet self.old.given }
        ensures opened { self.new ≡ record self.old { given = self.new.given } }
        ensures given { self.new.given ≡ self.old.given + (if is_none (state self.old.geometry (P.choice self.old.pick) self.old.sheet self.old.given).over && nat_lt self.old.given self.old.sheet.ticks then 1 else 0) }
    {
        if let Some(words) = self.stand.over {
            return Tick::LiveOver(words);
        }
        let tick = self.given;
        if tick >= self.checked.sheet.ticks {
            return Tick::Over;
        }
        self.given = tick + 1;
        self.stand.tick(&self.checked.sheet, &self.pick, tick)
    }

    /// The jobs of the task of a seat that have ended.
    pub fn ended(&self, seat: u8) -> u64
        requires { seat < length (tasks_of self.now.sheet) }
        ensures { result ≡ (course_at (state self.now.geometry (P.choice self.now.pick) self.now.sheet self.now.given) seat).job }
    {
        self.stand.tasks[seat as usize].job
    }

    /// The most ticks from the arrival of a job of the task of a seat to its end, 0 where none has ended.
    pub fn latest(&self, seat: u8) -> u64
        requires { seat < length (tasks_of self.now.sheet) }
        ensures { result ≡ (course_at (state self.now.geometry (P.choice self.now.pick) self.now.sheet self.now.given) seat).latest }
    {
        self.stand.tasks[seat as usize].latest
    }

    /// The collection cycles that have begun.
    pub fn flips(&self) -> u64
        ensures { result ≡ (state self.now.geometry (P.choice self.now.pick) self.now.sheet self.now.given).flips }
    {
        self.stand.flips
    }

    /// The ticks that the collector has had.
    pub fn events(&self) -> u64
        ensures { result ≡ (state self.now.geometry (P.choice self.now.pick) self.now.sheet self.now.given).events }
    {
        self.stand.events
    }

    /// The ticks that nobody has had.
    pub fn idle(&self) -> u64
        ensures { result ≡ (state self.now.geometry (P.choice self.now.pick) self.now.sheet self.now.given).idle }
    {
        self.stand.idle
    }
}

#[cfg(test)]
impl<P: Pick> SessionBy<P> {
    /// The events that the collector owes.
    pub fn debt(&self) -> u64 {
        self.stand.debt
    }

    /// The words used for allocation since the last flip.
    pub fn used(&self) -> u32 {
        self.stand.heap.words_used()
    }
}

/// The session of an admitted sheet: of the ready high jobs that of the first task goes first. It has the response times of
/// the high tasks beside it.
#[derive(Drop)]
pub struct Session {
    pub by: SessionBy<First>,
    pub responses: Ticks,
}

impl Session {
    /// The session of an admitted sheet before its first tick. Only this call takes memory.
    pub fn open(alloc: Global, admitted: Admitted) -> Result<Session, Memory>
        ensures sheet { IfOk result (λ s. s.by.sheet ≡ admitted.checked.sheet) }
        ensures sizes { IfOk result (λ s. HasSizes s.by.geometry (sizes_of s.by.sheet)) }
        ensures numbers { IfOk result (λ s. (s.by.work ≡ admitted.checked.work) × (s.by.attempt ≡ admitted.checked.attempt) × (s.by.busy ≡ admitted.checked.busy) × (s.by.debt ≡ admitted.checked.debt)) }
        ensures choice { IfOk result (λ s. ⟦<First as Pick>⟧.choice s.by.pick ≡ least_task) }
        ensures given { IfOk result (λ s. s.by.given ≡ 0) }
        ensures responses { IfOk result (λ s. s.responses ≡ admitted.responses) }
    {
        Ok(Session {
            by: SessionBy::open(alloc, admitted.checked, First)?,
            responses: admitted.responses,
        })
    }

    /// Gives the next tick, as [`SessionBy::tick`] does.
    pub fn tick(&mut self) -> Tick
        ensures answer { result ≡ told self.old.by.geometry least_task self.old.by.sheet self.old.by.given }
        ensures opened { self.new.by ≡ record self.old.by { given = self.new.by.given } }
        ensures given { self.new.by.given ≡ self.old.by.given + (if is_none (state self.old.by.geometry least_task self.old.by.sheet self.old.by.given).over && nat_lt self.old.by.given self.old.by.sheet.ticks then 1 else 0) }
        ensures responses { self.new.responses ≡ self.old.responses }
    {
        self.by.tick()
    }
}
