//! Passes and the collector on threads of their own.
ghost use Rattle.std.specs.Prelude.{◌≡◌, ◌<◌, All, IfOk};
ghost use Rattle.hk_table.specs.Passes.{IsPassOf, IsKeeperOf};
ghost use Rattle.shared_mix.specs.Jobs.{JobFits};

use crate::tally::{Events, Tally};
use crate::worker::Worker;
use hk_core::Work;
use hk_keeper::collect;
use hk_table::{Heap, Keeper, Steps};
use std::alloc::AllocError;
use std::marker::Brand;
use std::sync::atomic::{AtomicBool, Ordering};
use std::sync::ledger::{Blank, Ledger};
use std::thread;
use std::thread::Threads;

/// What one thread does.
#[derive(Drop)]
pub enum Job {
    /// So many rounds of a pass, or fewer where the collector ends before.
    Work { worker: Worker, rounds: u64 },
    /// So many events of the collector, one after another, and then the word to stop.
    Collect { keeper: Keeper, events: u64 },
}

/// What was done.
#[derive(Drop)]
pub enum Done {
    Worked(Tally),
    Collected(Events),
}

/// So many events, each a turn of its own, so that each is told.
fn collect_all<L: Ledger>(heap: &Heap, keeper: Keeper, events: u64, blank: Blank) -> Events
    requires keeper { IsKeeperOf heap.now keeper }
    requires name { blank.name ≡ L.name }
    requires parts { blank.parts ≡ L.parts }
    requires some { 0 < L.parts }
{
    let mut keeper = keeper;
    let mut steps = Steps::<L>::new(blank);
    let mut counted = Events::default();
    for _ in 0..events {
        let work = collect(heap, &mut keeper, 1, &mut steps);
        counted.count(work);
        if work == Work::Worn {
            return counted;
        }
    }
    counted
}

/// The rounds of a pass.
fn work_all<L: Ledger>(
    heap: &Heap,
    worker: Worker,
    rounds: u64,
    stop: &AtomicBool,
    blank: Blank,
) -> Tally
    requires pass { IsPassOf heap.now worker.pass }
    requires registers { heap.now.geometry.registers ≡ 8 }
    requires home { worker.home < 8 }
    requires name { blank.name ≡ L.name }
    requires parts { blank.parts ≡ L.parts }
    requires some { 0 < L.parts }
{
    let mut worker = worker;
    let mut steps = Steps::<L>::new(blank);
    worker.run(heap, rounds, stop, &mut steps);
    worker.tally()
}

/// What one thread does.
fn do_job(heap: &Heap, stop: &AtomicBool, job: Job) -> Done
    requires job { JobFits heap.now job }
    requires registers { heap.now.geometry.registers ≡ 8 }
{
    match job {
        Job::Work { worker, rounds } => {
            Done::Worked(work_all::<Brand>(heap, worker, rounds, stop, Blank::new(1)))
        }
        Job::Collect { keeper, events } => {
            let counted = collect_all::<Brand>(heap, keeper, events, Blank::new(1));
            stop.store(true, Ordering::SeqCst);
            Done::Collected(counted)
        }
    }
}

/// The jobs and one more.
pub fn with_one_more(heap: &Heap, jobs: Vec<Job>, job: Job) -> Result<Vec<Job>, AllocError>
    requires all { All (JobFits heap.now) jobs.items }
    requires one { JobFits heap.now job }
    ensures all { IfOk result (λ more. All (JobFits heap.now) more.items) }
{
    let mut more = jobs;
    more.push(job)?;
    Ok(more)
}

/// Does the jobs, each on a thread of its own, and answers what each did.
pub fn do_all<R: Threads + Sync>(
    rt: &R,
    heap: &Heap,
    jobs: Vec<Job>,
) -> Result<Vec<Done>, AllocError>
    requires jobs { All (JobFits heap.now) jobs.items }
    requires registers { heap.now.geometry.registers ≡ 8 }
{
    let stop = AtomicBool::new(false);
    thread::map_vec(
        rt,
        jobs,
        &|job: Job| -> Done
            requires job { JobFits heap.now job }
            requires registers { heap.now.geometry.registers ≡ 8 }
        { do_job(heap, &stop, job) },
    )
}
