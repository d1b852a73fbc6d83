//! heap_mix: so many rounds of a fixed mixture of calls on the heap of one owner, with the collector's events that each
//! new object owes. It prints what was done, and a digest of the numbers that were read. Its first word is the number of
//! rounds. Each call is done in one piece, or, with a second word `steps`, begun and done step by step.
#![tactic(auto)]

mod calls;
mod mixture;
mod tally;

use anyhow::{Context, Result, anyhow};
use calls::{Calls, Pieces, Steps};
use mixture::Mixture;
use std::env;
use std::rt::Env;
use tally::Tally;

/// The number of rounds, from the word behind the program's name.
fn rounds(rt: &(impl Env + AllocGlobal)) -> Result<u64> {
    match env::args(rt)?.nth(1) {
        Some(word) => word.parse::<u64>().context("the number of rounds"),
        None => Err(anyhow!("heap_mix ROUNDS [steps]")),
    }
}

/// Whether calls are done step by step, from the word behind the rounds.
fn by_steps(rt: &(impl Env + AllocGlobal)) -> Result<bool> {
    match env::args(rt)?.nth(2) {
        None => Ok(false),
        Some(word) if word.as_str() == "steps" => Ok(true),
        Some(_) => Err(anyhow!("heap_mix ROUNDS [steps]")),
    }
}

/// What so many rounds on a heap come to.
fn mixed<C: Calls + Drop>(heap: C, rounds: u64) -> Tally {
    let mut mixture = Mixture::new(heap);
    mixture.build();
    mixture.run(rounds);
    mixture.tally()
}

fn main(rt: HostRuntime) -> Result<()> {
    let rounds = rounds(&rt)?;
    let by_steps = by_steps(&rt)?;
    let Some(heap) = calls::open(rt.alloc()) else {
        return Err(anyhow!("no memory for the heap"));
    };
    let tally = if by_steps {
        mixed(Steps { heap }, rounds)
    } else {
        mixed(Pieces { heap }, rounds)
    };
    println!(rt; "rounds {rounds}")?;
    println!(rt;
        "get {} put {} load {} store {} move {} clear {} new {}",
        tally.gets, tally.puts, tally.loads, tally.stores, tally.moves, tally.clears, tally.news
    )?;
    println!(rt; "refused {} full {}", tally.refused, tally.full)?;
    println!(rt;
        "collector {} flips {} lost {} waits {}",
        tally.events, tally.flips, tally.lost, tally.waits
    )?;
    println!(rt; "digest {}", tally.digest)?;
    Ok(())
}
