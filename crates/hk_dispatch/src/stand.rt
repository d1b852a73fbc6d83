//! Where a session stands, and what a tick does: the five rules.
ghost use Rattle.std.specs.Prelude.{◌≡◌, ℕ, ◌<◌, length, IfOk};
ghost use Rattle.hk_words.specs.Geometry.{HasSizes};
ghost use Rattle.hk_plan.specs.AloneBy.{ready_at};
ghost use Rattle.hk_sheet.specs.declared.sheet.Sheet.{Sheet};
ghost use Rattle.hk_sheet.specs.Faults.{sizes_of};
ghost use Rattle.hk_sheet.specs.Valid.{IsSheet};
ghost use Rattle.hk_dispatch.specs.Tasks.{IsLowSeat, tasks_of};
ghost use Rattle.hk_dispatch.specs.Moment.{Moment, opening};
ghost use Rattle.hk_dispatch.specs.Turns.{to_task, to_collector, to_nobody, ready_rows, turn};
ghost use Rattle.hk_dispatch.specs.Opened.{Shows, Fit, Before, AtTurn, OnlyLow, Gave, rows_of, Went};

use crate::events::{flips_in, lost_in, next_event, over_in, told_event};
use crate::pick::Pick;
use crate::roster::Roster;
use crate::run::{Done, TaskRun};
use crate::seats::{start_all, task_at, tell};
use crate::tick::{Tick, Who};
use hk_collect::OwnedHeap;
use hk_sheet::Sheet;
use hk_words::Memory;
use std::alloc::Global;

/// Where a session stands between two ticks.
#[derive(Drop)]
pub(crate) struct Stand {
    pub heap: OwnedHeap,
    /// The tasks, the high ones first.
    pub tasks: Vec<TaskRun>,
    roster: Roster,
    /// The seat of the low operation in mid-course.
    in_mid_course: Option<u8>,
    /// The events that the collector owes.
    pub debt: u64,
    pub flips: u64,
    pub events: u64,
    pub idle: u64,
    /// The words that the collector found reserved, once these were more than the space has.
    pub over: Option<u64>,
}

impl Stand {
    /// Before the first tick.
    pub fn open(alloc: Global, sheet: &Sheet) -> Result<Stand, Memory>
        requires { IsSheet sheet.now }
        ensures sizes { IfOk result (λ s. HasSizes s.heap.geometry (sizes_of sheet.now)) }
        ensures shows { IfOk result (λ s. Shows sheet.now (opening s.heap.geometry sheet.now) 0 s) }
        ensures fit { IfOk result (λ s. Fit 0 s) }
    {
        let geometry = sheet.geometry();
        let heap = OwnedHeap::open(alloc, geometry)?;
        let tasks = start_all(alloc, sheet)?;
        Ok(Stand {
            heap,
            tasks,
            roster: Roster::new(),
            in_mid_course: None,
            debt: 0,
            flips: 0,
            events: 0,
            idle: 0,
            over: None,
        })
    }

    /// Gives a tick, by the five rules.
    pub fn tick<P: Pick>(&mut self, sheet: &Sheet, pick: &P, tick: u64) -> Tick
        requires { (m : Moment) × Before sheet.now m tick self.old }
        ensures { (m : Moment) → Before sheet.now m tick self.old → Went sheet.now m tick (turn (P.choice pick.now) sheet.now m tick) self.new result }
    {
        self.look(sheet, tick);
        let rows = self.roster.rows();
        if !rows.is_empty() {
            let place = pick.pick(rows);
            return self.high_tick(sheet, place, tick);
        }
        if let Some(seat) = self.in_mid_course {
            return self.low_tick(sheet, seat, tick);
        }
        if self.debt > 0 {
            return self.collect();
        }
        if let Some(seat) = self.roster.low() {
            return self.low_tick(sheet, seat, tick);
        }
        self.pass()
    }

    /// Looks through the tasks, where that is due.
    fn look(&mut self, sheet: &Sheet, tick: u64)
        requires { (m : Moment) × Before sheet.now m tick self.old }
        ensures { (m : Moment) → Before sheet.now m tick self.old → AtTurn sheet.now m tick self.new }
    {
        self.roster.refresh(&sheet.high.items, &self.tasks, tick);
    }

    /// Gives a tick to the ready high job of a row.
    fn high_tick(&mut self, sheet: &Sheet, place: usize, tick: u64) -> Tick
        requires at { (m : Moment) × AtTurn sheet.now m tick self.old }
        requires place { place < length (rows_of self.old.roster) }
        ensures { (m : Moment) → AtTurn sheet.now m tick self.old → Went sheet.now m tick (to_task (ready_at (ready_rows sheet.now m tick) place).task) self.new result }
    {
        let seat = self.roster.rows()[place].task;
        let done = self.give(sheet, seat, tick);
        let run = &self.tasks[seat as usize];
        self.roster.high_went(place, run, done.end.is_some());
        tell(sheet, seat, done)
    }

    /// Gives a tick to a low task, which no other one is to have gone on before.
    fn low_tick(&mut self, sheet: &Sheet, seat: u8, tick: u64) -> Tick
        requires at { (m : Moment) × AtTurn sheet.now m tick self.old }
        requires low { IsLowSeat sheet.now seat }
        ensures { (m : Moment) → AtTurn sheet.now m tick self.old → OnlyLow sheet.now m seat → Went sheet.now m tick (to_task seat) self.new result }
    {
        let done = self.give(sheet, seat, tick);
        self.roster.low_went(done.end.is_some());
        self.in_mid_course = done.mid_course.then_some(seat);
        tell(sheet, seat, done)
    }

    /// Gives a tick to the job of a seat. The words that it takes are owed for.
    fn give(&mut self, sheet: &Sheet, seat: u8, tick: u64) -> Done
        requires at { (m : Moment) × Before sheet.now m tick self.old }
        requires seat { seat < length (tasks_of sheet.now) }
        ensures gave { (m : Moment) → Before sheet.now m tick self.old → Gave sheet.now m tick seat self.new result }
        ensures keeps { self.new ≡ record self.old { heap = self.new.heap; tasks = self.new.tasks; debt = self.new.debt } }
    {
        let task = task_at(sheet, seat);
        let done = self.tasks[seat as usize].tick(&mut self.heap, task, seat, tick);
        self.debt += sheet.heap.rate * u64::from(done.words);
        done
    }

    /// Gives a tick to the collector: one event, which pays for one that is owed.
    fn collect(&mut self) -> Tick
        requires at { (sheet : Sheet) × (m : Moment) × (tick : ℕ) × AtTurn sheet m tick self.old }
        requires owed { 0 < self.old.debt }
        ensures { (sheet : Sheet) (m : Moment) (tick : ℕ) → AtTurn sheet m tick self.old → Went sheet m tick to_collector self.new result }
    {
        let work = next_event(&mut self.heap);
        self.debt = self.debt - 1 + u64::from(lost_in(work));
        self.flips += u64::from(flips_in(work));
        self.events += 1;
        self.over = over_in(work);
        told_event(work)
    }

    /// Gives a tick to nobody.
    fn pass(&mut self) -> Tick
        requires { (sheet : Sheet) × (m : Moment) × (tick : ℕ) × AtTurn sheet m tick self.old }
        ensures { (sheet : Sheet) (m : Moment) (tick : ℕ) → AtTurn sheet m tick self.old → Went sheet m tick to_nobody self.new result }
    {
        self.idle += 1;
        Tick::Ran {
            who: Who::Idle,
            out: None,
            end: None,
        }
    }
}
