//! What the program is told to do.
ghost use Rattle.std.specs.Prelude.{◌≡◌, ◌<◌, ◌≤◌, All, IfOk, IfSome};
ghost use Rattle.hk_words.specs.Geometry.{tasks};
ghost use Rattle.hk_table.specs.Passes.{IsPassOf, IsKeeperOf};
ghost use Rattle.shared_mix.specs.Jobs.{JobFits};

use crate::history::{Seen, shake};
use crate::jobs::{Done, Job, do_all, with_one_more};
use crate::tally::{Events, Tally};
use crate::worker::{Home, Worker};
use anyhow::{Context, Result, anyhow};
use hk_table::{Heap, Keeper, Pass, Steps};
use hk_words::{Geometry, Memory};
use std::alloc::Global;
use std::env;
use std::marker::Brand;
use std::rt::Env;
use std::sync::ledger::{Blank, Ledger};
use std::thread::Threads;

/// The most passes.
const MOST: u8 = 8;

/// What is run.
#[derive(Clone, Copy, Debug, PartialEq, Eq)]
enum Kind {
    /// Passes alone.
    Passes(Home),
    /// The collector, with passes beside it.
    Collector,
    /// Passes and the collector; their calls are written down and explained.
    History,
}

/// How many passes do how much.
#[derive(Clone, Copy, Debug, PartialEq, Eq)]
pub struct Plan {
    kind: Kind,
    passes: u8,
    /// The rounds of each pass; or the events of the collector, until which the passes go on; or the calls of each pass.
    amount: u64,
}

impl Plan {
    /// The plan in the words behind the program's name.
    pub fn read(rt: &(impl Env + AllocGlobal)) -> Result<Plan> {
        let mut words = env::args(rt)?.skip(1);
        let (Some(kind), Some(passes), Some(amount)) = (words.next(), words.next(), words.next())
        else {
            return Err(anyhow!("shared_mix board|own|collector|history PASSES ROUNDS"));
        };
        let passes = passes.parse::<u8>().context("the number of passes")?;
        let amount = amount.parse::<u64>().context("the number of rounds")?;
        if passes > MOST {
            return Err(anyhow!("at most {MOST} passes"));
        }
        let kind = match kind.as_str() {
            "board" => Kind::Passes(Home::Board),
            "own" => Kind::Passes(Home::Own),
            "collector" => Kind::Collector,
            "history" => Kind::History,
            _ => return Err(anyhow!("board, own, collector or history")),
        };
        Ok(Plan {
            kind,
            passes,
            amount,
        })
    }
}

impl Plan {
    /// Does it.
    pub fn run<R: Threads + Sync>(&self, rt: &R, alloc: Global) -> Result<Outcome> {
        if self.kind == Kind::History {
            return self.explained(rt, alloc);
        }
        let Some(g) = geometry(self.passes.max(1)) else {
            return Err(anyhow!("no geometry"));
        };
        let Ok((heap, passes, keeper)) = opened(alloc, g) else {
            return Err(anyhow!("no memory for the heap"));
        };
        let jobs = self.jobs::<Brand>(alloc, &heap, passes, keeper, Blank::new(1))?;
        let mut tally = Tally::default();
        let mut events = Events::default();
        for done in do_all(rt, &heap, jobs)? {
            match done {
                Done::Worked(other) => tally.add(&other),
                Done::Collected(counted) => events = counted,
            }
        }
        Ok(Outcome::Done(tally, events))
    }

    /// The calls of eight passes, in ten rounds, explained.
    fn explained<R: Threads + Sync>(&self, rt: &R, alloc: Global) -> Result<Outcome> {
        let Some(g) = history_geometry() else {
            return Err(anyhow!("no geometry"));
        };
        let calls = u32::try_from(self.amount / 10).context("too many calls")?;
        match shake(rt, alloc, g, 10, calls) {
            Ok(seen) => Ok(Outcome::Explained(seen)),
            Err(_) => Err(anyhow!("no memory")),
        }
    }

    /// The jobs, each of whose passes is prepared. Without passes there is the collector's alone.
    fn jobs<L: Ledger>(
        &self,
        alloc: Global,
        heap: &Heap,
        passes: Vec<Pass>,
        keeper: Keeper,
        blank: Blank,
    ) -> Result<Vec<Job>>
        requires passes { All (IsPassOf heap.now) passes.items }
        requires keeper { IsKeeperOf heap.now keeper }
        requires registers { heap.now.geometry.registers ≡ 8 }
        requires name { blank.name ≡ L.name }
        requires parts { blank.parts ≡ L.parts }
        requires some { 0 < L.parts }
        ensures { IfOk result (λ jobs. All (JobFits heap.now) jobs.items) }
    {
        let mut left = passes;
        let mut steps = Steps::<L>::new(blank);
        let mut jobs = Vec::new(alloc);
        while let Some(pass) = left.pop() {
            if self.passes != 0 {
                jobs = with_one_more(heap, jobs, self.work(heap, pass, &mut steps))?;
            }
        }
        if self.kind == Kind::Collector {
            jobs = with_one_more(heap, jobs, self.collect(heap, keeper))?;
        }
        Ok(jobs)
    }

    /// The job of the collector.
    fn collect(&self, heap: &Heap, keeper: Keeper) -> Job
        requires { IsKeeperOf heap.now keeper }
        ensures { JobFits heap.now result }
    {
        Job::Collect {
            keeper,
            events: self.amount,
        }
    }

    /// The job of a pass, which is prepared for it.
    fn work<L: Ledger>(&self, heap: &Heap, pass: Pass, steps: &mut Steps<L>) -> Job
        requires pass { IsPassOf heap.now pass }
        requires registers { heap.now.geometry.registers ≡ 8 }
        ensures { JobFits heap.now result }
    {
        let (home, makes) = match self.kind {
            Kind::Passes(home) => (home, false),
            Kind::Collector | Kind::History => (Home::Board, true),
        };
        let mut worker = Worker::new(pass, home, makes);
        worker.prepare(heap, steps);
        Job::Work {
            worker,
            rounds: if makes { u64::MAX } else { self.amount },
        }
    }
}

/// What came of it.
#[derive(Clone, Copy, Debug, PartialEq, Eq)]
pub enum Outcome {
    Done(Tally, Events),
    Explained(Seen),
}

/// The heap of four high tasks and four low ones, for a history.
fn history_geometry() -> Option<Geometry>
    ensures registers { IfSome result (λ g. g.registers ≡ 8) }
    ensures tasks { IfSome result (λ g. tasks g ≡ 8) }
{
    Geometry::new(4096, 4096, 512, 4, 4, 4, 4).ok()
}

/// The heap of so many low tasks.
fn geometry(tasks: u8) -> Option<Geometry>
    ensures { IfSome result (λ g. g.registers ≡ 8) }
{
    Geometry::new(256, 1024, 0, 0, tasks, 8, 4).ok()
}

/// The heap at the start, with its passes and its keeper.
pub fn opened(alloc: Global, g: Geometry) -> Result<(Heap, Vec<Pass>, Keeper), Memory>
    ensures heap { IfOk result (λ r. r.0.geometry ≡ g) }
    ensures passes { IfOk result (λ r. All (IsPassOf r.0) r.1.items) }
    ensures keeper { IfOk result (λ r. IsKeeperOf r.0 r.2) }
{
    Heap::open(alloc, g)
}
