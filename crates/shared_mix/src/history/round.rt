//! Rounds: passes of all seats on threads of their own, and the collector beside them.
ghost use Rattle.std.specs.Prelude.{◌≡◌, ◌<◌, All, IfOk, IfSome};
ghost use Rattle.hk_table.specs.Passes.{IsPassOf, IsKeeperOf, IsNoteOf};
ghost use Rattle.shared_mix.specs.Jobs.{ActorFits};

use super::player::Player;
use hk_core::Work;
use hk_keeper::collect;
use hk_table::{Heap, Keeper, Note, Steps};
use std::alloc::{AllocError, Global};
use std::marker::Brand;
use std::sync::atomic::{AtomicU64, Ordering};
use std::sync::ledger::{Blank, Ledger};
use std::thread;
use std::thread::Threads;

/// Whoever does the heap's steps.
#[derive(Drop)]
pub enum Actor {
    Play(Player),
    Collect(Collector),
}

/// The collector, with what it was answered.
#[derive(Drop)]
pub struct Collector {
    pub keeper: Keeper,
    pub flips: u64,
    pub lost: u64,
    pub over: u64,
}

impl Collector {
    /// The collector at the start.
    pub fn new(keeper: Keeper) -> Collector
        ensures { result.keeper ≡ keeper }
    {
        Collector {
            keeper,
            flips: 0,
            lost: 0,
            over: 0,
        }
    }
}

/// What all threads of a round share.
#[derive(Drop)]
pub struct Round {
    /// The calls of each pass.
    calls: u32,
    /// The times of the calls are drawn from it.
    pub clock: AtomicU64,
    /// The passes that haven't ended.
    left: AtomicU64,
}

impl Round {
    /// Rounds of so many calls of each pass.
    pub fn of(calls: u32) -> Round {
        Round {
            calls,
            clock: AtomicU64::new(0),
            left: AtomicU64::new(0),
        }
    }

    /// Eight passes begin.
    pub fn begin(&self) {
        self.left.store(8, Ordering::SeqCst);
    }
}

/// Turns of the collector until no pass is left.
fn collect_beside<L: Ledger>(heap: &Heap, round: &Round, collector: &mut Collector, blank: Blank)
    requires keeper { IsKeeperOf heap.now collector.old.keeper }
    requires name { blank.name ≡ L.name }
    requires parts { blank.parts ≡ L.parts }
    requires some { 0 < L.parts }
    ensures { IsKeeperOf heap.now collector.new.keeper }
{
    let mut steps = Steps::<L>::new(blank);
    for _ in 0..u64::MAX {
        match collect(heap, &mut collector.keeper, 64, &mut steps) {
            Work::Flipped => collector.flips = collector.flips.wrapping_add(1),
            Work::Lost(_) => collector.lost = collector.lost.wrapping_add(1),
            Work::LiveOver(_) => collector.over = collector.over.wrapping_add(1),
            _ => {}
        }
        if round.left.load(Ordering::SeqCst) == 0 {
            return;
        }
    }
}

/// The calls of a pass in a round.
fn play_round<L: Ledger>(heap: &Heap, round: &Round, player: &mut Player, blank: Blank)
    requires pass { IsPassOf heap.now player.old.pass }
    requires registers { heap.now.geometry.registers ≡ 8 }
    requires name { blank.name ≡ L.name }
    requires parts { blank.parts ≡ L.parts }
    requires some { 0 < L.parts }
    ensures { IsPassOf heap.now player.new.pass }
{
    let mut steps = Steps::<L>::new(blank);
    let _whole = player
        .play(heap, &round.clock, round.calls, &mut steps)
        .is_ok();
}

/// What one thread does.
fn act(heap: &Heap, round: &Round, actor: Actor) -> Actor
    requires actor { ActorFits heap.now actor }
    requires registers { heap.now.geometry.registers ≡ 8 }
    ensures { ActorFits heap.entry.now result }
{
    match actor {
        Actor::Play(mut player) => {
            play_round::<Brand>(heap, round, &mut player, Blank::new(1));
            round.left.fetch_sub(1, Ordering::SeqCst);
            Actor::Play(player)
        }
        Actor::Collect(mut collector) => {
            collect_beside::<Brand>(heap, round, &mut collector, Blank::new(1));
            Actor::Collect(collector)
        }
    }
}

/// A round, each actor on a thread of its own.
pub fn act_all<R: Threads + Sync>(
    rt: &R,
    heap: &Heap,
    round: &Round,
    actors: Vec<Actor>,
) -> Result<Vec<Actor>, AllocError>
    requires actors { All (ActorFits heap.now) actors.items }
    requires registers { heap.now.geometry.registers ≡ 8 }
    ensures { IfOk result (λ after. All (ActorFits heap.now) after.items) }
{
    thread::map_vec(
        rt,
        actors,
        &|actor: Actor| -> Actor
            requires actor { ActorFits heap.now actor }
            requires registers { heap.now.geometry.registers ≡ 8 }
            ensures { ActorFits heap.entry.now result }
        { act(heap, round, actor) },
    )
}

/// The actors and one more.
pub fn with_one_more(
    heap: &Heap,
    actors: Vec<Actor>,
    actor: Actor,
) -> Result<Vec<Actor>, AllocError>
    requires all { All (ActorFits heap.now) actors.items }
    requires one { ActorFits heap.now actor }
    ensures all { IfOk result (λ more. All (ActorFits heap.now) more.items) }
{
    let mut more = actors;
    more.push(actor)?;
    Ok(more)
}

/// Each pass learns what the one before it had seen. The actors then stand in the other order.
pub fn meet(alloc: Global, heap: &Heap, actors: Vec<Actor>) -> Result<Vec<Actor>, AllocError>
    requires { All (ActorFits heap.now) actors.items }
    ensures { IfOk result (λ after. All (ActorFits heap.now) after.items) }
{
    let mut left = actors;
    let mut met = Vec::new(alloc);
    let mut last = None;
    while let Some(actor) = left.pop() {
        let (after, note) = learn(heap, actor, last);
        last = note;
        met = with_one_more(heap, met, after)?;
    }
    Ok(met)
}

/// A pass learns a note, where there is one, and notes what it has seen then. The collector leaves the note as it is.
fn learn(heap: &Heap, actor: Actor, note: Option<Note>) -> (Actor, Option<Note>)
    requires actor { ActorFits heap.now actor }
    requires note { IfSome note (λ note. IsNoteOf heap.now note) }
    ensures actor { ActorFits heap.now result.0 }
    ensures note { IfSome result.1 (λ note. IsNoteOf heap.now note) }
{
    match actor {
        Actor::Play(player) => {
            let (player, seen) = learn_as_pass(heap, player, note);
            (Actor::Play(player), Some(seen))
        }
        Actor::Collect(collector) => (Actor::Collect(collector), note),
    }
}

/// A pass learns a note, where there is one, and notes what it has seen then.
fn learn_as_pass(heap: &Heap, player: Player, note: Option<Note>) -> (Player, Note)
    requires pass { IsPassOf heap.now player.pass }
    requires note { IfSome note (λ note. IsNoteOf heap.now note) }
    ensures pass { IsPassOf heap.now result.0.pass }
    ensures note { IsNoteOf heap.now result.1 }
{
    let mut player = player;
    if let Some(note) = note {
        heap.learn(&mut player.pass, note);
    }
    let note = heap.note(&mut player.pass);
    (player, note)
}
