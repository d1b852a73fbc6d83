//! The run of one task, from job to job.
ghost use Rattle.std.specs.Prelude.{◌≡◌, ℕ, ◌^◌, ◌<◌, ◌≤◌, ◌&&◌, nat_lt, Some, IfSome, IsSomeAnd};
ghost use Rattle.hk_words.specs.Geometry.{tasks};
ghost use Rattle.hk_core.specs.State.{IsSized, flight_of};
ghost use Rattle.hk_script.specs.Walks.{walk_after};
ghost use Rattle.hk_dispatch.specs.Moment.{Course, no_course};
ghost use Rattle.hk_dispatch.specs.Turns.{is_operation};
ghost use Rattle.hk_dispatch.specs.InStep.{SeatInStep};
ghost use Rattle.hk_dispatch.specs.Kept.{CourseKept};
ghost use Rattle.hk_dispatch.specs.Ticks.{words_by, left_by, next_job, passed, course_after};
ghost use Rattle.hk_dispatch.specs.Told.{out_of, ended, end_past, end_of};
ghost use Rattle.hk_dispatch.specs.TaskRuns.{ShowsCourse, task_of, shown, wanted, MayWant, core_by, Replies, LeavesBy, stays};

use crate::needs::{advance, heard, is_mid_course, out_of, taken};
use crate::operation::Left;
use crate::tick::{End, JobFault};
use hk_collect::OwnedHeap;
use hk_core::Fault;
use hk_script::{Script, Walk};
use hk_sheet::{High, Low};
use hk_words::Reply;

/// A task of a sheet, high or low.
#[derive(Clone, Copy)]
pub(crate) enum Task<'a> {
    High(&'a High),
    Low(&'a Low),
}

impl<'a> Task<'a> {
    /// What each of its jobs does.
    fn script(self) -> &'a Script
        ensures { result.now ≡ (task_of self.entry).script }
    {
        match self {
            Task::High(task) => &task.script,
            Task::Low(task) => &task.script,
        }
    }

    /// When a job arrives.
    fn arrival(self, job: u64) -> Option<u64>
        ensures { result ≡ (task_of self.entry).arrival job }
    {
        match self {
            Task::High(task) => task.arrivals.at(job),
            Task::Low(task) => task.arrivals.at(job),
        }
    }

    /// When a job becomes ready that arrives then. A low one does so when it arrives, and a high one where its task has no lag.
    fn ready(self, job: u64, arrival: Option<u64>) -> Option<u64>
        requires { arrival ≡ (task_of self).arrival job }
        ensures { result ≡ (task_of self.entry).ready job }
    {
        match self {
            Task::High(task) if task.lag > 0 => task.ready(job),
            _ => arrival,
        }
    }
}

/// Where a task stands between two ticks.
#[derive(Clone, Copy, Debug)]
pub(crate) struct TaskRun {
    /// The job that is under way or comes next, counted from 0. As many jobs have ended.
    pub job: u64,
    /// When that job arrives and when it becomes ready, where there is one.
    pub arrival: Option<u64>,
    pub ready: Option<u64>,
    /// Where it is in its script.
    walk: Walk,
    /// The ticks that it has had of the statement that it is at, and in all.
    spent: u64,
    pub had: u64,
    /// The most ticks from an ended job's arrival to its end.
    pub latest: u64,
}

/// What a tick of a task did.
#[derive(Clone, Copy, Debug)]
pub(crate) struct Done {
    /// What it put out.
    pub out: Option<u64>,
    /// The end that it brought.
    pub end: Option<End>,
    /// The words that it took.
    pub words: u32,
    /// It left an operation in mid-course.
    pub mid_course: bool,
}

impl TaskRun {
    /// A task before the first tick.
    pub fn start(task: Task<'_>) -> TaskRun
        ensures { ShowsCourse (task_of task.entry) no_course result }
    {
        let arrival = task.arrival(0);
        TaskRun {
            job: 0,
            arrival,
            ready: task.ready(0, arrival),
            walk: Walk::start(0),
            spent: 0,
            had: 0,
            latest: 0,
        }
    }

    /// Gives a tick to the task's job, which is ready.
    pub fn tick(&mut self, heap: &mut OwnedHeap, task: Task<'_>, seat: u8, tick: u64) -> Done
        requires sized { IsSized heap.old }
        requires seat { seat < tasks heap.old.geometry }
        requires early { tick < 2 ^ 24 }
        requires arrival { self.old.arrival ≡ (task_of task).arrival self.old.job }
        requires kept { CourseKept (task_of task) (shown self.old 0) tick }
        requires wants { IfSome (wanted (task_of task) self.old) (MayWant heap.old.geometry) }
        requires in_step { SeatInStep (flight_of heap.old.flights seat) (wanted (task_of task) self.old) self.old.spent }
        ensures heap { heap.new ≡ core_by heap.old seat self.old.spent (wanted (task_of task.entry) self.old) }
        ensures course { (course : Course) → ShowsCourse (task_of task.entry) course self.old
            → ShowsCourse (task_of task.entry) (course_after (task_of task.entry) course tick (words_by heap.old seat self.old.spent (wanted (task_of task.entry) self.old)) (left_by heap.old seat self.old.spent (wanted (task_of task.entry) self.old))) self.new }
        ensures out { result.out ≡ out_of (wanted (task_of task.entry) self.old) }
        ensures end { result.end ≡ end_of (task_of task.entry) self.old.job self.old.walk tick (left_by heap.old seat self.old.spent (wanted (task_of task.entry) self.old)) }
        ensures words { result.words ≡ words_by heap.old seat self.old.spent (wanted (task_of task.entry) self.old) }
        ensures few { result.words ≤ 511 }
        ensures mid_course { result.mid_course ≡ (is_operation (wanted (task_of task.entry) self.new) && nat_lt 0 self.new.spent) }
    {
        let script = task.script();
        let Some(need) = self.walk.next(script) else {
            unreachable!();
        };
        let words = taken(heap, seat, need, self.spent);
        let left = advance(heap, seat, need, self.spent);
        Done {
            out: out_of(need),
            end: self.leave(task, left, tick),
            words,
            mid_course: is_mid_course(need, left),
        }
    }

    /// Goes on as the tick left the job, and answers the end that this is.
    fn leave(&mut self, task: Task<'_>, left: Left, tick: u64) -> Option<End>
        requires early { tick < 2 ^ 24 }
        requires arrival { self.old.arrival ≡ (task_of task).arrival self.old.job }
        requires kept { CourseKept (task_of task) (shown self.old 0) tick }
        requires leaves { IsSomeAnd (wanted (task_of task) self.old) (λ need. LeavesBy need left) }
        ensures course { (course : Course) (words : ℕ) → ShowsCourse (task_of task.entry) course self.old
            → ShowsCourse (task_of task.entry) (course_after (task_of task.entry) course tick words left) self.new }
        ensures end { result ≡ end_of (task_of task.entry) self.old.job self.old.walk tick left }
        ensures mid_course { (is_operation (wanted (task_of task.entry) self.new) && nat_lt 0 self.new.spent) ≡ (is_operation (wanted (task_of task.entry) self.old) && stays left) }
    {
        match left {
            Left::Stays => {
                self.spent += 1;
                self.had += 1;
                None
            }
            Left::Passes(reply) => self.pass(task, reply, tick),
            Left::Faults(fault) => {
                let statement = self.walk.statement(task.script());
                let nil = matches!(fault, Fault::Nil);
                Some(self.end(task, tick, Some(JobFault { statement, nil })))
            }
        }
    }

    /// Goes past the statement whose last tick this was, to the next one or to the end of the job.
    fn pass(&mut self, task: Task<'_>, reply: Reply, tick: u64) -> Option<End>
        requires early { tick < 2 ^ 24 }
        requires arrival { self.old.arrival ≡ (task_of task).arrival self.old.job }
        requires kept { CourseKept (task_of task) (shown self.old 0) tick }
        requires replied { IsSomeAnd (wanted (task_of task) self.old) (λ need. Replies need reply) }
        ensures course { (course : Course) (words : ℕ) → ShowsCourse (task_of task.entry) course self.old
            → ShowsCourse (task_of task.entry) (passed (task_of task.entry) course tick words (walk_after (task_of task.entry).script course.walk reply)) self.new }
        ensures end { result ≡ end_past (task_of task.entry) self.old.job tick (walk_after (task_of task.entry).script self.old.walk reply) }
        ensures spent { self.new.spent ≡ 0 }
    {
        let script = task.script();
        self.walk.done(script, heard(reply));
        self.spent = 0;
        self.had += 1;
        if self.walk.place as usize == script.statements().len() {
            Some(self.end(task, tick, None))
        } else {
            None
        }
    }

    /// Ends the job with this tick, and goes on to the task's next one.
    fn end(&mut self, task: Task<'_>, tick: u64, fault: Option<JobFault>) -> End
        requires early { tick < 2 ^ 24 }
        requires arrival { self.old.arrival ≡ (task_of task).arrival self.old.job }
        requires few { self.old.job ≤ tick }
        ensures course { (course : Course) → ShowsCourse (task_of task.entry) course self.old
            → ShowsCourse (task_of task.entry) (next_job (task_of task.entry) course tick) self.new }
        ensures end { Some result ≡ ended self.old.job ((task_of task.entry).arrival self.old.job) tick fault }
        ensures spent { self.new.spent ≡ 0 }
    {
        let job = self.job;
        let ticks = match self.arrival {
            Some(arrival) => (tick + 1).saturating_sub(arrival),
            None => 0,
        };
        self.job = job + 1;
        let arrival = task.arrival(job + 1);
        self.arrival = arrival;
        self.ready = task.ready(job + 1, arrival);
        self.walk = Walk::start(job + 1);
        self.spent = 0;
        self.had = 0;
        self.latest = self.latest.max(ticks);
        End { job, ticks, fault }
    }
}
