//! The workers and the collector, each on a thread.
ghost use Rattle.std.specs.Prelude.{◌≡◌, ◌⊎◌, ℕ, ◌+◌, ◌<◌, ◌≤◌, [], All, IfOk, IfSome, IsNone, length, slice_index_or, is_some};
ghost use Rattle.std.specs.List.{list_any};
ghost use Rattle.hk_model.specs.History.{History};
ghost use Rattle.hk_sheet.specs.Faults.{sizes_of};
ghost use Rattle.hk_sheet.specs.Valid.{IsSheet};
ghost use Rattle.hk_table.specs.Ends.{Opens};
ghost use Rattle.hk_table.specs.Rule.{fresh};
ghost use Rattle.hk_table.specs.Passes.{IsPassOf, IsKeeperOf, known, kept};
ghost use Rattle.hk_table.specs.Seats.{keeper_from};
ghost use Rattle.hk_words.specs.Geometry.{HasSizes, tasks};
ghost use Rattle.hk_words.specs.declared.geometry.Geometry.{Geometry};
ghost use Rattle.hk_race.specs.Jobs.{MayWork, IsJobOf, ComesBack, Parts, Agree};
ghost use Rattle.hk_race.specs.Lives.{live_of, reserved_by};
ghost use Rattle.hk_race.specs.Raced.{IsRace};
ghost use Rattle.hk_race.specs.Tasks.{tasks_of, HasNoLong};
ghost use Rattle.hk_race.specs.Text.{race_text};

use crate::collector::collect_all;
use crate::gate::Gate;
use crate::progress::Progress;
use crate::room::AtWork;
use crate::tasks::{Held, task_at};
use crate::text::{tell, tell_end};
use crate::thread::work_all;
use hk_sheet::Sheet;
use hk_table::{Closed, Heap, Keeper, Pass, close};
use hk_words::Memory;
use std::alloc::{AllocError, Global};
use std::marker::Brand;
use std::sync::Wait;
use std::sync::ledger::Blank;
use std::thread;
use std::thread::Threads;

/// A task with its pass.
#[derive(Drop)]
pub(crate) struct Job<'a> {
    pub pass: Pass,
    pub task: Held<'a>,
}

/// A pass that came back, with what its worker tells, where it found memory.
#[derive(Drop)]
pub(crate) struct Ended {
    pub pass: Pass,
    pub told: Option<Progress>,
}

/// The keeper that came back, with the words that its last event found live, where they were too many.
#[derive(Drop)]
pub(crate) struct Swept {
    pub keeper: Keeper,
    pub live: Option<u64>,
}

/// The passes that came back, and what was told of their tasks, by seats.
#[derive(Drop)]
pub(crate) struct Parted {
    pub passes: Vec<Pass>,
    pub told: Vec<Progress>,
}

/// What a race came to.
#[derive(Drop)]
pub struct Raced {
    /// The heap as it was closed.
    pub closed: Closed,
    /// The words that the collector found live, where they were more than were declared.
    pub live: Option<u64>,
    /// Some task stopped at a New that found no room.
    pub full: bool,
    /// What was told of the tasks.
    pub text: Vec<u8>,
}

/// The job of a worker.
fn run_job<R: Wait, G: Gate>(
    rt: &R,
    alloc: Global,
    heap: &Heap,
    gate: &G,
    at_work: &AtWork,
    job: Job<'_>,
) -> Ended
    requires { MayWork heap.now job }
    ensures { ComesBack heap.now job.entry result }
{
    let Job { pass, task } = job;
    let (pass, told) = work_all::<Brand, R, G>(
        rt,
        alloc,
        heap,
        gate,
        at_work,
        pass,
        task.script,
        task.jobs,
        task.cost,
        Blank::new(1),
    );
    Ended {
        pass,
        told: told.ok(),
    }
}

/// The job of the collector.
fn run_collector<R: Wait, G: Gate>(
    rt: &R,
    heap: &Heap,
    gate: &G,
    at_work: &AtWork,
    mut keeper: Keeper,
) -> Swept
    requires keeper { IsKeeperOf heap.now keeper }
    requires fresh { kept keeper ≡ keeper_from (tasks heap.now.geometry) }
    ensures keeper { IsKeeperOf heap.now result.keeper }
    ensures live { result.live ≡ live_of heap.now.geometry (kept result.keeper).log }
    ensures above { IfSome result.live (λ words. heap.now.geometry.live < words) }
    ensures reserved { IfSome result.live (λ words. words ≤ reserved_by heap.now.geometry (kept result.keeper).log) }
    ensures cycle { IsNone result.live → 3 ≤ (kept result.keeper).spot.cycle }
{
    let live = collect_all::<Brand, R, G>(rt, heap, gate, at_work, &mut keeper, Blank::new(1));
    at_work.collector_ended();
    Swept { keeper, live }
}

/// All workers, each on a thread of its own. Where there is no memory some may not have run; then none counts any more.
fn run_workers<R: Threads + Wait + Sync, G: Gate>(
    rt: &R,
    alloc: Global,
    heap: &Heap,
    gate: &G,
    at_work: &AtWork,
    jobs: Vec<Job<'_>>,
) -> Result<Vec<Ended>, AllocError>
    requires { All (MayWork heap.now) jobs.items }
    ensures count { IfOk result (λ v. length v.items ≡ length jobs.entry.items) }
    ensures each { IfOk result (λ v. (i : ℕ) (d : Ended) (j : Job) → i < length jobs.entry.items → ComesBack heap.now (slice_index_or jobs.entry.items i j) (slice_index_or v.items i d)) }
{
    let ended = thread::map_vec(
        rt,
        jobs,
        &|job: Job| -> Ended
            requires { MayWork heap.now job }
            ensures { ComesBack heap.entry.now job.entry result }
        { run_job(rt, alloc, heap, gate, at_work, job) },
    );
    at_work.workers_ended();
    ended
}

/// All workers and the collector beside them.
fn run_all<R: Threads + Wait + Sync, G: Gate>(
    rt: &R,
    alloc: Global,
    heap: &Heap,
    gate: &G,
    jobs: Vec<Job<'_>>,
    keeper: Keeper,
) -> (Result<Vec<Ended>, AllocError>, Swept)
    requires jobs { All (MayWork heap.now) jobs.items }
    requires keeper { IsKeeperOf heap.now keeper }
    requires fresh { kept keeper ≡ keeper_from (tasks heap.now.geometry) }
    ensures count { IfOk result.0 (λ v. length v.items ≡ length jobs.entry.items) }
    ensures each { IfOk result.0 (λ v. (i : ℕ) (d : Ended) (j : Job) → i < length jobs.entry.items → ComesBack heap.now (slice_index_or jobs.entry.items i j) (slice_index_or v.items i d)) }
    ensures keeper { IsKeeperOf heap.now result.1.keeper }
    ensures live { result.1.live ≡ live_of heap.now.geometry (kept result.1.keeper).log }
    ensures above { IfSome result.1.live (λ words. heap.now.geometry.live < words) }
    ensures reserved { IfSome result.1.live (λ words. words ≤ reserved_by heap.now.geometry (kept result.1.keeper).log) }
    ensures cycle { IsNone result.1.live → 3 ≤ (kept result.1.keeper).spot.cycle }
{
    let all = AtWork::new(jobs.len() as u64);
    let at_work = &all;
    let work = move || -> Result<Vec<Ended>, AllocError>
        requires { All (MayWork heap.now) jobs.items }
        ensures count { IfOk result (λ v. length v.items ≡ length jobs.entry.items) }
        ensures each { IfOk result (λ v. (i : ℕ) (d : Ended) (j : Job) → i < length jobs.entry.items → ComesBack heap.entry.now (slice_index_or jobs.entry.items i j) (slice_index_or v.items i d)) }
    { run_workers(rt, alloc, heap, gate, at_work, jobs) };
    let collect = move || -> Swept
        requires { IsKeeperOf heap.now keeper × (kept keeper ≡ keeper_from (tasks heap.now.geometry)) }
        ensures keeper { IsKeeperOf heap.entry.now result.keeper }
        ensures live { result.live ≡ live_of heap.entry.now.geometry (kept result.keeper).log }
        ensures above { IfSome result.live (λ words. heap.entry.now.geometry.live < words) }
        ensures reserved { IfSome result.live (λ words. words ≤ reserved_by heap.entry.now.geometry (kept result.keeper).log) }
        ensures cycle { IsNone result.live → 3 ≤ (kept result.keeper).spot.cycle }
    { run_collector(rt, heap, gate, at_work, keeper) };
    // Where no thread can be made for the collector it has its turn after the workers, which don't wait for it for ever; the other
    // way round it would wait for them until its cycles are spent.
    let (swept, ended) = thread::join(rt, collect, work);
    (ended, swept)
}

/// The job of each seat, in order.
fn jobs_of<'a>(
    alloc: Global,
    heap: &Heap,
    sheet: &'a Sheet,
    passes: Vec<Pass>,
) -> Result<Vec<Job<'a>>, AllocError>
    requires sheet { IsSheet sheet.now }
    requires short { HasNoLong sheet.now }
    requires registers { heap.now.geometry.registers ≡ sheet.now.heap.registers }
    requires count { length passes.items ≡ length (tasks_of sheet.now) }
    requires each { (seat : ℕ) (d : Pass) → seat < length passes.items
        → IsPassOf heap.now (slice_index_or passes.items seat d) × (known (slice_index_or passes.items seat d) ≡ fresh heap.now.geometry seat) }
    ensures count { IfOk result (λ v. length v.items ≡ length (tasks_of sheet.now)) }
    ensures each { IfOk result (λ v. (seat : ℕ) (d : Job) → seat < length v.items → IsJobOf heap.now sheet.now seat (slice_index_or v.items seat d)) }
{
    let mut jobs = Vec::new(alloc);
    for pass in passes {
        let task = task_at(sheet, jobs.len());
        jobs.push(Job { pass, task })?;
    }
    Ok(jobs)
}

/// The passes that came back, and what was told of their tasks, by seats. Where a worker found no memory there is none here.
fn taken_apart(alloc: Global, ended: Vec<Ended>) -> Result<Parted, Memory>
    ensures { IfOk result (λ parts. Parts ended.items parts.passes.items parts.told.items) }
{
    let mut passes = Vec::new(alloc);
    let mut all = Vec::new(alloc);
    for one in ended {
        let Ended { pass, told } = one;
        let Some(own) = told else {
            return Err(Memory);
        };
        passes.push(pass)?;
        all.push(own)?;
    }
    Ok(Parted { passes, told: all })
}

/// The words that a sheet declares live.
fn declared(sheet: &Sheet) -> u64
    ensures { result ≡ sheet.now.heap.live }
{
    u64::from(sheet.heap.live)
}

/// The text of a sheet, by what was told of its tasks.
fn text_of(
    alloc: Global,
    sheet: &Sheet,
    told: &[Progress],
    live: Option<u64>,
) -> Result<Vec<u8>, AllocError>
    requires sheet { IsSheet sheet.now }
    requires short { HasNoLong sheet.now }
    requires count { length told.now ≡ length (tasks_of sheet.now) }
    ensures { IfOk result (λ text. (g : Geometry) (history : History) → Agree sheet.now g history told.now → text.items ≡ race_text sheet.now g history live) }
{
    let mut text = Vec::new(alloc);
    for seat in 0..told.len() {
        let task = task_at(sheet, seat);
        tell(&mut text, task.name, &told[seat])?;
    }
    tell_end(&mut text, declared(sheet), live)?;
    Ok(text)
}

/// Some task stopped at a New that found no room.
fn any_stopped(told: &[Progress]) -> bool
    ensures { result ≡ list_any (λ own. is_some own.full) told.now }
{
    told.iter().any(|own| own.full.is_some())
}

/// Does the scripts of a sheet on a heap that was opened for it: one worker for each task, on the task's own pass, and the
/// collector beside them, each on a thread of its own where one can be made. At the end the heap is closed.
pub fn compete<R: Threads + Wait + Sync, G: Gate>(
    rt: &R,
    alloc: Global,
    sheet: &Sheet,
    heap: Heap,
    passes: Vec<Pass>,
    keeper: Keeper,
    gate: &G,
) -> Result<Raced, Memory>
    requires sheet { IsSheet sheet.now }
    requires short { HasNoLong sheet.now }
    requires sizes { HasSizes heap.geometry (sizes_of sheet.now) }
    requires open { Opens heap.geometry heap passes.items keeper }
    ensures { IfOk result (λ raced. IsRace heap sheet.now raced) }
{
    let jobs = jobs_of(alloc, &heap, sheet, passes)?;
    let (ended, swept) = run_all(rt, alloc, &heap, gate, jobs, keeper);
    let ended = ended?;
    let parts = taken_apart(alloc, ended)?;
    let text = text_of(alloc, sheet, parts.told.as_slice(), swept.live)?;
    let full = any_stopped(parts.told.as_slice());
    let closed = close(heap, parts.passes, swept.keeper);
    Ok(Raced {
        closed,
        live: swept.live,
        full,
        text,
    })
}
