//! Whose jobs are ready.
ghost use Rattle.std.specs.Prelude.{◌≡◌, ◌+◌, ◌^◌, ◌<◌, ◌≤◌, length, slice_set};
ghost use Rattle.std.specs.List.{remove};
ghost use Rattle.hk_sheet.specs.declared.sheet.Sheet.{Sheet};
ghost use Rattle.hk_dispatch.specs.Moment.{Moment};
ghost use Rattle.hk_dispatch.specs.Turns.{arrived};
ghost use Rattle.hk_dispatch.specs.Opened.{ShowsCourses, MayLook, HasRoom, rows_of, HighWent, roster_after, due_by, ShowsReady};

use crate::run::TaskRun;
use hk_plan::Ready;
use hk_sheet::High;

/// The most tasks of a sheet.
const MAX_TASKS: usize = 31;

/// A row of no job.
const NO_JOB: Ready = Ready {
    task: 0,
    job: 0,
    arrival: 0,
    deadline: 0,
    done: 0,
};

/// The jobs that are ready: a row for each high one, in the order of the sheet, and the first low task that has one.
///
/// The tasks are looked through anew only once a job has become ready or a low one has ended: other ticks look at no task.
/// Where a high job ends, its row goes.
#[derive(Clone, Copy, Debug)]
pub(crate) struct Roster {
    /// The rows that the last look found, of which the first are gone.
    rows: [Ready; MAX_TASKS],
    count: usize,
    gone: usize,
    low: Option<u8>,
    /// The first tick at which the tasks have to be looked through.
    stale_from: u64,
}

impl Roster {
    /// One that has to be looked through at the first tick.
    pub fn new() -> Roster
        ensures room { HasRoom result }
        ensures stale { result.stale_from ≡ 0 }
    {
        Roster {
            rows: [NO_JOB; MAX_TASKS],
            count: 0,
            gone: 0,
            low: None,
            stale_from: 0,
        }
    }

    /// The rows of the ready high jobs.
    pub fn rows(&self) -> &[Ready]
        requires { HasRoom self.now }
        ensures { result.now ≡ rows_of self.now }
    {
        &self.rows[self.gone..self.count]
    }

    /// The seat of the first low task with a ready job.
    pub fn low(&self) -> Option<u8>
        ensures { result ≡ self.now.low }
    {
        self.low
    }

    /// A low job has had a tick. Where that ended it, the tasks are looked through at the next one.
    pub fn low_went(&mut self, ended: bool)
        ensures { self.new ≡ roster_after ended self.old }
    {
        if ended {
            self.stale_from = 0;
        }
    }

    /// The high job of a row has had a tick, after which its task stands so.
    pub fn high_went(&mut self, place: usize, run: &TaskRun, ended: bool)
        requires room { HasRoom self.old }
        requires place { place < length (rows_of self.old) }
        ensures { HighWent place run.now ended self.old self.new }
    {
        if ended {
            self.end(place, run.ready);
        } else {
            self.rows[self.gone + place].done = run.had;
        }
    }

    /// The job of a row has ended. The row goes, those in front of it move up, and the tasks are looked through at the latest
    /// when the task's next job becomes ready.
    fn end(&mut self, place: usize, next: Option<u64>)
        requires room { HasRoom self.old }
        requires place { place < length (rows_of self.old) }
        ensures room { HasRoom self.new }
        ensures rows { rows_of self.new ≡ remove (rows_of self.old) place }
        ensures low { self.new.low ≡ self.old.low }
        ensures due { self.new.stale_from ≡ due_by next self.old.stale_from }
    {
        let first = self.gone;
        self.rows.copy_within(first..first + place, first + 1);
        self.gone += 1;
        if let Some(ready) = next {
            self.stale_from = self.stale_from.min(ready);
        }
    }

    /// Looks through the tasks, where a tick has come to which that is due.
    pub fn refresh(&mut self, high: &[High], tasks: &[TaskRun], tick: u64)
        requires may { MayLook high.now tasks.now tick }
        requires room { HasRoom self.old }
        ensures room { HasRoom self.new }
        ensures ready { (sheet : Sheet) (m : Moment) → sheet.high ≡ high.now → ShowsCourses sheet m tasks.now
            → (tick < self.old.stale_from → ShowsReady sheet m tick self.old) → ShowsReady sheet m tick self.new }
    {
        if tick >= self.stale_from {
            self.look(high, tasks, tick);
        }
    }

    /// Looks through the tasks: which have a ready job, and when the next of the others will.
    fn look(&mut self, high: &[High], tasks: &[TaskRun], tick: u64)
        requires { MayLook high.now tasks.now tick }
        ensures room { HasRoom self.new }
        ensures ready { (sheet : Sheet) (m : Moment) → sheet.high ≡ high.now → ShowsCourses sheet m tasks.now → ShowsReady sheet m tick self.new }
    {
        self.count = 0;
        self.gone = 0;
        self.low = None;
        self.stale_from = u64::MAX;
        for (seat, run) in tasks.iter().enumerate() {
            let Some(ready) = run.ready else { continue };
            if ready > tick {
                self.stale_from = self.stale_from.min(ready);
            } else if seat < high.len() {
                self.add(seat as u8, run, high[seat].timing.deadline);
            } else if self.low.is_none() {
                self.low = Some(seat as u8);
            }
        }
    }

    /// Adds the row of a ready high job.
    fn add(&mut self, seat: u8, run: &TaskRun, deadline: u64)
        requires room { self.old.count < 31 }
        requires fits { arrived run.now.arrival + deadline < 2 ^ 64 }
        ensures { self.new ≡ record self.old {
          rows = slice_set self.old.rows self.old.count (record { task = seat; job = run.now.job; arrival = arrived run.now.arrival; deadline = arrived run.now.arrival + deadline; done = run.now.had });
          count = self.old.count + 1;
        } }
    {
        let arrival = run.arrival.unwrap_or(0);
        self.rows[self.count] = Ready {
            task: seat,
            job: run.job,
            arrival,
            deadline: arrival + deadline,
            done: run.had,
        };
        self.count += 1;
    }
}
