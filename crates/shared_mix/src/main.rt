//! shared_mix: a fixed mixture of calls on the heap that threads share. Its words are where the calls go, `board` or `own`, the
//! number of passes, and the number of rounds of each; or `collector`, the number of passes beside it, and the number of its
//! events; or `history`, a number that says nothing, and the calls of each of eight passes, which are then explained.
#![tactic(auto)]

mod draws;
mod history;
mod jobs;
mod plan;
mod tally;
mod worker;

use anyhow::{Result, anyhow};
use history::Seen;
use plan::{Outcome, Plan};
use tally::{Events, Tally};

/// Prints what passes and the collector did.
fn print_done(rt: &impl Print, tally: &Tally, events: &Events) -> Result<()> {
    println!(rt;
        "get {} put {} load {} store {} move {} clear {} new {}",
        tally.gets, tally.puts, tally.loads, tally.stores, tally.moves, tally.clears, tally.news
    )?;
    println!(rt; "refused {} full {}", tally.refused, tally.full)?;
    println!(rt;
        "collector {} flips {} lost {} waits {}",
        events.all, events.flips, events.lost, events.waits
    )?;
    println!(rt; "digest {}", tally.digest)?;
    Ok(())
}

/// Prints what was seen of a history that was explained; one that wasn't is an error.
fn print_seen(rt: &impl Print, seen: &Seen) -> Result<()> {
    println!(rt;
        "calls {} full {} refused {}",
        seen.calls, seen.full, seen.refused
    )?;
    println!(rt;
        "flips {} lost {} over {}",
        seen.flips, seen.lost, seen.over
    )?;
    if !seen.ordered {
        return Err(anyhow!("no order of the calls"));
    }
    if let Some(record) = seen.differs {
        return Err(anyhow!("the plain heap answers otherwise: {record:?}"));
    }
    Ok(())
}

fn main(rt: HostRuntime) -> Result<()> {
    let plan = Plan::read(&rt)?;
    match plan.run(&rt, rt.alloc())? {
        Outcome::Done(tally, events) => print_done(&rt, &tally, &events),
        Outcome::Explained(seen) => print_seen(&rt, &seen),
    }
}
