//! What the program opens, and what it tells of it.
ghost use Rattle.std.specs.Prelude.{◌≡◌};

use crate::{owned, shared};
use hk_core::Core;
use hk_model::Plain;
use hk_plan::{Plan, Row};
use hk_words::{Call, Geometry, Memory, Reply, Shape};
use std::alloc::{AllocError, Global};

/// Why there is nothing to tell.
#[derive(Clone, Copy, Debug, PartialEq, Eq)]
pub enum Unopened {
    /// There was no memory.
    Memory,
    /// A word names nothing that is opened here.
    Word,
}

impl From<AllocError> for Unopened {
    fn from(_error: AllocError) -> Unopened {
        Unopened::Memory
    }
}

impl From<Memory> for Unopened {
    fn from(_error: Memory) -> Unopened {
        Unopened::Memory
    }
}

/// What is opened.
#[derive(Clone, Copy, Debug, PartialEq, Eq)]
pub enum Opening {
    /// The row of words with the calls in flight.
    Core,
    /// The heap of one owner.
    Owned,
    /// The heap that threads share.
    Heap,
    /// The plain schedule.
    Plan,
    /// The heap that never collects.
    Plain,
}

/// The number that is written into an object and read again.
pub const NUMBER: u64 = 7;

/// Two reference fields and two numbers.
pub const BOARD: Shape = Shape { refs: 2, nums: 2 };

/// The heap of a high task and a low one.
pub fn geometry() -> Geometry
    ensures registers { result.registers ≡ 8 }
    ensures high { result.high ≡ 1 }
    ensures low { result.low ≡ 1 }
{
    Geometry::laid_out((62, 512, 129), (1, 1), 8, BOARD)
}

/// A line that tells the number which a call read, or that it read none.
pub fn number_line(alloc: Global, name: &str, read: Option<u64>) -> Result<String, AllocError> {
    match read {
        Some(number) => format!(in alloc; "{name} {number}\n"),
        None => format!(in alloc; "{name} none\n"),
    }
}

impl Opening {
    /// What a word names.
    pub fn named(word: &str) -> Option<Opening> {
        match word {
            "core" => Some(Opening::Core),
            "owned" => Some(Opening::Owned),
            "heap" => Some(Opening::Heap),
            "plan" => Some(Opening::Plan),
            "plain" => Some(Opening::Plain),
            _ => None,
        }
    }

    /// Opens it, uses it, and tells what was seen, in a line.
    pub fn line(&self, alloc: Global) -> Result<String, Unopened> {
        match self {
            Opening::Core => core_line(alloc),
            Opening::Owned => owned::line(alloc),
            Opening::Heap => shared::line(alloc),
            Opening::Plan => plan_line(alloc),
            Opening::Plain => plain_line(alloc),
        }
    }
}

/// The counts of a core at the start.
fn core_line(alloc: Global) -> Result<String, Unopened> {
    let core = Core::open(alloc, geometry())?;
    let (cycle, used, reserved) = (core.cycle(), core.words_used(), core.reserved());
    Ok(format!(in alloc; "core cycle {cycle} used {used} reserved {reserved}\n")?)
}

/// When two pieces of work end: the lesser task's arrives at 1 and takes one tick, the other's arrives at 0 and takes two.
fn plan_line(alloc: Global) -> Result<String, Unopened> {
    let first = Row {
        task: 0,
        arrival: 1,
        ticks: 1,
    };
    let second = Row {
        task: 1,
        arrival: 0,
        ticks: 2,
    };
    let mut plan = Plan::open(alloc, &[first, second])?;
    plan.tick();
    plan.tick();
    plan.tick();
    match (plan.finish_of(0), plan.finish_of(1)) {
        (Some(one), Some(other)) => Ok(format!(in alloc; "plan {one} {other}\n")?),
        _ => Ok(format!(in alloc; "plan none\n")?),
    }
}

/// The number that a new object of the plain heap keeps.
fn plain_line(alloc: Global) -> Result<String, Unopened> {
    let mut plain = Plain::open(alloc, 1, BOARD)?;
    let make = Call::New {
        dest: 1,
        shape: BOARD,
    };
    let put = Call::Put {
        reg: 1,
        field: 0,
        value: NUMBER,
    };
    plain.apply(alloc, 0, make)?;
    plain.apply(alloc, 0, put)?;
    let read = match plain.apply(alloc, 0, Call::Get { reg: 1, field: 0 })? {
        Reply::Num(number) => Some(number),
        _ => None,
    };
    Ok(number_line(alloc, "plain", read)?)
}
