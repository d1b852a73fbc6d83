//! Calls of all seats on threads, with the collector beside them; an order of them that explains what each was answered; and
//! that order replayed on the heap that never collects.
ghost use Rattle.std.specs.Prelude.{◌≡◌, ℕ, ◌<◌, All, IfOk, IfSome, IsTrue, length, slice_index_or};
ghost use Rattle.hk_words.specs.Geometry.{tasks};
ghost use Rattle.hk_table.specs.Passes.{IsPassOf, IsKeeperOf};
ghost use Rattle.hk_table.specs.Ends.{HasAllSeats};
ghost use Rattle.shared_mix.specs.Jobs.{ActorFits};

mod calls;
mod order;
mod player;
mod record;
mod replay;
mod round;
#[cfg(test)]
mod tests;

use crate::plan::opened;
use calls::Answer;
use hk_model::Plain;
use hk_table::{Heap, Keeper, Pass, Steps, close};
use hk_words::{Call, Geometry, Memory, Reply};
use order::order;
use player::{BOARD, Player};
use record::Record;
use replay::replay;
use round::{Actor, Collector, Round, act_all, meet, with_one_more};
use std::alloc::{AllocError, Global};
use std::marker::Brand;
use std::sync::ledger::{Blank, Ledger};
use std::thread::Threads;

/// What was seen of a heap's life.
#[derive(Clone, Copy, Debug, PartialEq, Eq, Default)]
pub struct Seen {
    /// The calls that were written down.
    pub calls: u64,
    /// The calls that found no room.
    pub full: u64,
    /// The calls through a null register, or on a field that isn't there.
    pub refused: u64,
    /// The flips of the collector.
    pub flips: u64,
    /// The attempts that it lost.
    pub lost: u64,
    /// Its turns in which too much was live.
    pub over: u64,
    /// An order was found in which each read finds what was written last before it.
    pub ordered: bool,
    /// The first call whose answer, in that order, isn't the plain heap's.
    pub differs: Option<Record>,
    /// The words reserved as the heap was closed, where it was.
    pub reserved: Option<u64>,
}

impl Seen {
    /// Counts a call.
    fn count(&mut self, record: &Record) {
        self.calls = self.calls.wrapping_add(1);
        match record.answer {
            Answer::Full(_) => self.full = self.full.wrapping_add(1),
            Answer::Replied(Reply::Nil | Reply::Field) => {
                self.refused = self.refused.wrapping_add(1);
            }
            Answer::Replied(_) | Answer::Spent => {}
        }
    }
}

/// What is left of the actors.
#[derive(Drop)]
struct Gathered {
    passes: Vec<Pass>,
    keeper: Option<Keeper>,
    records: Vec<Record>,
    seen: Seen,
}

/// Rounds of so many calls of each of eight passes, each on a thread of its own, and the collector beside them. After each
/// round each pass learns what the one before it has seen. At the end the calls are explained, and the heap is closed.
pub fn shake<R: Threads + Sync>(
    rt: &R,
    alloc: Global,
    g: Geometry,
    rounds: u32,
    calls: u32,
) -> Result<Seen, Memory>
    requires registers { g.registers ≡ 8 }
    requires tasks { tasks g ≡ 8 }
{
    let (heap, passes, keeper) = opened(alloc, g)?;
    let round = Round::of(calls);
    let first = first_actors::<Brand>(alloc, &heap, &round, passes, keeper, Blank::new(1))?;
    let last = act_rounds(rt, alloc, &heap, &round, first, rounds)?;
    let Gathered {
        passes,
        keeper,
        records,
        seen,
    } = gather(alloc, &heap, last)?;
    let mut seen = explain(alloc, &g, records.as_slice(), seen)?;
    if let Some(keeper) = keeper {
        if have_all_seats(passes.as_slice()) {
            let closed = close(heap, passes, keeper);
            seen.reserved = Some(closed.reserved());
        }
    }
    Ok(seen)
}

/// The actors at the start. The pass of seat 0 has written the board's name.
fn first_actors<L: Ledger>(
    alloc: Global,
    heap: &Heap,
    round: &Round,
    passes: Vec<Pass>,
    keeper: Keeper,
    blank: Blank,
) -> Result<Vec<Actor>, AllocError>
    requires passes { All (IsPassOf heap.now) passes.items }
    requires keeper { IsKeeperOf heap.now keeper }
    requires registers { heap.now.geometry.registers ≡ 8 }
    requires name { blank.name ≡ L.name }
    requires parts { blank.parts ≡ L.parts }
    requires some { 0 < L.parts }
    ensures { IfOk result (λ actors. All (ActorFits heap.now) actors.items) }
{
    let mut left = passes;
    let mut steps = Steps::<L>::new(blank);
    let mut actors = Vec::new(alloc);
    while let Some(pass) = left.pop() {
        let actor = first_player(alloc, heap, round, pass, left.is_empty(), &mut steps)?;
        actors = with_one_more(heap, actors, actor)?;
    }
    with_one_more(heap, actors, first_collector(heap, keeper))
}

/// A pass that has made no call, but for the first of all, which writes the board's name.
fn first_player<L: Ledger>(
    alloc: Global,
    heap: &Heap,
    round: &Round,
    pass: Pass,
    is_first: bool,
    steps: &mut Steps<L>,
) -> Result<Actor, AllocError>
    requires pass { IsPassOf heap.now pass }
    requires registers { heap.now.geometry.registers ≡ 8 }
    ensures { IfOk result (λ actor. ActorFits heap.now actor) }
{
    let mut player = Player::new(alloc, pass);
    if is_first {
        let call = Call::Put {
            reg: 0,
            field: 0,
            value: BOARD,
        };
        player.play_one(heap, &round.clock, call, steps)?;
    }
    Ok(Actor::Play(player))
}

/// The collector, which has done nothing yet.
fn first_collector(heap: &Heap, keeper: Keeper) -> Actor
    requires { IsKeeperOf heap.now keeper }
    ensures { ActorFits heap.now result }
{
    Actor::Collect(Collector::new(keeper))
}

/// So many rounds, with a meeting after each.
fn act_rounds<R: Threads + Sync>(
    rt: &R,
    alloc: Global,
    heap: &Heap,
    round: &Round,
    actors: Vec<Actor>,
    rounds: u32,
) -> Result<Vec<Actor>, AllocError>
    requires actors { All (ActorFits heap.now) actors.items }
    requires registers { heap.now.geometry.registers ≡ 8 }
    ensures { IfOk result (λ after. All (ActorFits heap.now) after.items) }
{
    let mut actors = actors;
    for _ in 0..rounds {
        round.begin();
        let acted = act_all(rt, heap, round, actors)?;
        actors = meet(alloc, heap, acted)?;
    }
    Ok(actors)
}

/// Takes the actors apart.
fn gather(alloc: Global, heap: &Heap, actors: Vec<Actor>) -> Result<Gathered, AllocError>
    requires { All (ActorFits heap.now) actors.items }
    ensures passes { IfOk result (λ all. All (IsPassOf heap.now) all.passes.items) }
    ensures keeper { IfOk result (λ all. IfSome all.keeper (λ keeper. IsKeeperOf heap.now keeper)) }
{
    let mut left = actors;
    let mut gathered = Gathered {
        passes: Vec::new(alloc),
        keeper: None,
        records: Vec::new(alloc),
        seen: Seen::default(),
    };
    while let Some(actor) = left.pop() {
        gathered = with_actor(heap, gathered, actor)?;
    }
    Ok(gathered)
}

/// With what is left of one more actor.
fn with_actor(heap: &Heap, gathered: Gathered, actor: Actor) -> Result<Gathered, AllocError>
    requires passes { All (IsPassOf heap.now) gathered.passes.items }
    requires keeper { IfSome gathered.keeper (λ keeper. IsKeeperOf heap.now keeper) }
    requires actor { ActorFits heap.now actor }
    ensures passes { IfOk result (λ all. All (IsPassOf heap.now) all.passes.items) }
    ensures keeper { IfOk result (λ all. IfSome all.keeper (λ keeper. IsKeeperOf heap.now keeper)) }
{
    match actor {
        Actor::Play(player) => with_player(heap, gathered, player),
        Actor::Collect(collector) => Ok(with_collector(heap, gathered, collector)),
    }
}

/// With a pass, and what it wrote down.
fn with_player(heap: &Heap, gathered: Gathered, player: Player) -> Result<Gathered, AllocError>
    requires passes { All (IsPassOf heap.now) gathered.passes.items }
    requires keeper { IfSome gathered.keeper (λ keeper. IsKeeperOf heap.now keeper) }
    requires pass { IsPassOf heap.now player.pass }
    ensures passes { IfOk result (λ all. All (IsPassOf heap.now) all.passes.items) }
    ensures keeper { IfOk result (λ all. IfSome all.keeper (λ keeper. IsKeeperOf heap.now keeper)) }
{
    let Gathered {
        mut passes,
        keeper,
        mut records,
        seen,
    } = gathered;
    records.extend_from_slice(player.records.as_slice())?;
    passes.push(player.pass)?;
    Ok(Gathered {
        passes,
        keeper,
        records,
        seen,
    })
}

/// With the collector, and what it was answered.
fn with_collector(heap: &Heap, gathered: Gathered, collector: Collector) -> Gathered
    requires passes { All (IsPassOf heap.now) gathered.passes.items }
    requires keeper { IsKeeperOf heap.now collector.keeper }
    ensures passes { All (IsPassOf heap.now) result.passes.items }
    ensures keeper { IfSome result.keeper (λ keeper. IsKeeperOf heap.now keeper) }
{
    Gathered {
        passes: gathered.passes,
        keeper: Some(collector.keeper),
        records: gathered.records,
        seen: Seen {
            flips: collector.flips,
            lost: collector.lost,
            over: collector.over,
            ..gathered.seen
        },
    }
}

/// Seeks an order of the calls, and replays it.
fn explain(alloc: Global, g: &Geometry, records: &[Record], seen: Seen) -> Result<Seen, Memory> {
    let mut seen = seen;
    for record in records {
        seen.count(record);
    }
    if let Some(places) = order(alloc, records)? {
        seen.ordered = places.len() == records.len();
        let plain = Plain::open(alloc, 8, g.board)?;
        seen.differs = replay(alloc, g, plain, records, places.as_slice())?;
    }
    Ok(seen)
}

/// There are eight passes, in the order of their seats.
fn have_all_seats(passes: &[Pass]) -> bool
    ensures { IsTrue result → HasAllSeats 8 passes.now }
{
    if passes.len() != 8 {
        return false;
    }
    for place in 0..passes.len() {
        if usize::from(passes[place].seat()) != place {
            return false;
        }
    }
    true
}
