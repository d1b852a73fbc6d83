ghost use Rattle.std.specs.Prelude.{◌≡◌, ◌+◌, ◌%◌};

use crate::High;
use std::marker::Model;

/// Ticks, in the order in which they were written. A contract sees the list of the numbers.
#[derive(Debug, Drop)]
pub struct Ticks {
    pub items: Vec<u64>,
}

impl Model for Ticks {
    ghost use Rattle.std.specs.Prelude.{List, ℕ};

    ghost Value = { List ℕ };

    ghost view = { λ t. t.items.items };
}

/// When the jobs of a task arrive, in ticks.
#[derive(Debug, Drop)]
pub enum Arrivals {
    /// The first job at tick `first`, and each later one `step` ticks after the one before.
    Every { first: u64, step: u64 },
    /// One job at each of these ticks.
    List(Ticks),
}

impl Arrivals {
    ghost use Rattle.hk_sheet.specs.Arrivals.{arrival_of};

    /// The tick at which a job arrives; jobs count from 0. None where the list has no such job, or where the tick is
    /// above 2^64 - 1.
    pub fn at(&self, job: u64) -> Option<u64>
        ensures { result ≡ arrival_of self.now job }
    {
        match self {
            Arrivals::Every { first, step } => job.checked_mul(*step)?.checked_add(*first),
            Arrivals::List(ticks) => ticks.items.get(job as usize).copied(),
        }
    }
}

/// What is left of some ticks where a delay goes round from 0 to the most.
fn gone_round(ticks: u128, most: u64) -> u64
    ensures { result ≡ ticks % (most + 1) }
{
    (ticks % (u128::from(most) + 1)) as u64
}

impl High {
    ghost use Rattle.hk_sheet.specs.Arrivals.{delay_of, ready_of};

    /// How many ticks after its arrival a job becomes ready.
    fn delay(&self, job: u64) -> u64
        ensures { result ≡ delay_of self.now job }
    {
        let lag = self.lag;
        let jitter = self.timing.jitter;
        gone_round(u128::from(job) * u128::from(lag), jitter)
    }

    /// The tick at which a job becomes ready: its arrival and a delay of 0 to `jitter` ticks, which grows by `lag` from each
    /// job to the next and goes round. Jobs count from 0. None where there is no such job, or where the tick is above
    /// 2^64 - 1.
    pub fn ready(&self, job: u64) -> Option<u64>
        ensures { result ≡ ready_of self.now job }
    {
        self.arrivals.at(job)?.checked_add(self.delay(job))
    }
}
