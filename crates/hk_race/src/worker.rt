//! A worker: a task's jobs, one after the other.
ghost use Rattle.std.specs.Prelude.{◌≡◌, ◌⊎◌, ℕ, ◌+◌, ◌^◌, ◌<◌, ◌≤◌, ◌*◌, [], OnOk, IfOk, Some, None, true, is_some};
ghost use Rattle.hk_model.specs.Heap.{opening_of};
ghost use Rattle.hk_script.specs.declared.walk.Need.TheVariants.{Heap};
ghost use Rattle.hk_script.specs.Cost.{greatest_ticks};
ghost use Rattle.hk_script.specs.Left.{ticks_left};
ghost use Rattle.hk_script.specs.Walks.{need_of};
ghost use Rattle.hk_race.specs.Course.{stepped, times, job_done};
ghost use Rattle.hk_race.specs.Goes.{Goes, Ends, Walks, RunsOn, IsThrough, TellsCourse};
ghost use Rattle.hk_race.specs.declared.desk.TheConstants.{MOST_CALLS};

use crate::desk::{Desk, Said};
use crate::note::Note;
use crate::progress::Progress;
use hk_script::{Need, Script, Walk};
use hk_words::{Call, Reply};
use std::alloc::{AllocError, Global};

/// The call of the walk's statement.
fn call<D: Desk>(
    desk: &mut D,
    script: &Script,
    own: &mut Progress,
    call: Call,
) -> Result<(), AllocError>
    requires good { D.good desk.old }
    requires script { RunsOn (D.geometry desk.old).registers script.now }
    requires walks { Walks script.now own.old.walk }
    requires going { own.old.full ≡ None }
    requires need { need_of script.now own.old.walk ≡ Some (Heap call) }
    requires few { D.begun desk.old < MOST_CALLS }
    ensures good { D.good desk.new }
    ensures same { D.same desk.old desk.new }
    ensures geometry { D.geometry desk.new ≡ D.geometry desk.old }
    ensures seat { D.seat desk.new ≡ D.seat desk.old }
    ensures goes { OnOk result (Goes (opening_of (D.geometry desk.old)) (D.seat desk.old) (stepped script.now (D.seat desk.old)) (D.seen desk.old) (D.seen desk.new) own.old own.new) }
    ensures walks { Walks script.now own.new.walk }
    ensures falls { OnOk result (IsThrough script.now own.new ⊎ (ticks_left script.now own.new.walk + 1 ≤ ticks_left script.now own.old.walk)) }
    ensures jobs { own.new.jobs ≡ own.old.jobs }
    ensures begun { D.begun desk.new ≤ D.begun desk.old + 1 }
{
    match desk.call(call) {
        Said::Done(reply) => own.walk.done(script, reply),
        Said::Full(words) => own.full = Some(words),
        Said::Nil => {
            let (job, statement) = (own.jobs, own.walk.statement(script));
            end_job(script, own, Note::Nil { job, statement })?;
        }
        Said::Field => {
            let (job, statement) = (own.jobs, own.walk.statement(script));
            end_job(script, own, Note::Field { job, statement })?;
        }
    }
    Ok(())
}

/// Ends the job under way with a note.
fn end_job(script: &Script, own: &mut Progress, note: Note) -> Result<(), AllocError>
    requires walks { Walks script.now own.old.walk }
    ensures ends { OnOk result (Ends script.now note own.old own.new) }
    ensures jobs { own.new.jobs ≡ own.old.jobs }
    ensures walks { Walks script.now own.new.walk }
    ensures through { IsThrough script.now own.new }
{
    own.walk.place = script.statements().len() as u64;
    own.notes.push(note)?;
    Ok(())
}

/// One statement more.
fn statement<D: Desk>(desk: &mut D, script: &Script, own: &mut Progress) -> Result<(), AllocError>
    requires good { D.good desk.old }
    requires script { RunsOn (D.geometry desk.old).registers script.now }
    requires walks { Walks script.now own.old.walk }
    requires going { own.old.full ≡ None }
    requires few { D.begun desk.old < MOST_CALLS }
    ensures good { D.good desk.new }
    ensures same { D.same desk.old desk.new }
    ensures geometry { D.geometry desk.new ≡ D.geometry desk.old }
    ensures seat { D.seat desk.new ≡ D.seat desk.old }
    ensures goes { OnOk result (Goes (opening_of (D.geometry desk.old)) (D.seat desk.old) (stepped script.now (D.seat desk.old)) (D.seen desk.old) (D.seen desk.new) own.old own.new) }
    ensures walks { Walks script.now own.new.walk }
    // the job is through, or there is less left of it
    ensures falls { OnOk result (IsThrough script.now own.new ⊎ (ticks_left script.now own.new.walk + 1 ≤ ticks_left script.now own.old.walk)) }
    ensures jobs { own.new.jobs ≡ own.old.jobs }
    ensures begun { D.begun desk.new ≤ D.begun desk.old + 1 }
{
    match own.walk.next(script) {
        None => {}
        Some(Need::Work(_)) => own.walk.done(script, Reply::Unit),
        Some(Need::Local) => own.walk.done(script, Reply::Unit),
        Some(Need::Out(value)) => {
            own.notes.push(Note::Out(value))?;
            own.walk.done(script, Reply::Unit);
        }
        Some(Need::Ask(question)) => {
            let reply = desk.ask(question);
            own.walk.done(script, reply);
        }
        Some(Need::Heap(heap_call)) => call(desk, script, own, heap_call)?,
    }
    Ok(())
}

/// The statements of a job. They are at most as many as the ticks that the script costs, and then the job is at its end, or the
/// task has stopped.
fn statements<D: Desk>(
    desk: &mut D,
    script: &Script,
    cost: u64,
    own: &mut Progress,
) -> Result<(), AllocError>
    requires good { D.good desk.old }
    requires script { RunsOn (D.geometry desk.old).registers script.now }
    requires walks { Walks script.now own.old.walk }
    requires left { ticks_left script.now own.old.walk ≤ cost }
    requires few { D.begun desk.old + cost ≤ MOST_CALLS }
    ensures good { D.good desk.new }
    ensures same { D.same desk.old desk.new }
    ensures geometry { D.geometry desk.new ≡ D.geometry desk.old }
    ensures seat { D.seat desk.new ≡ D.seat desk.old }
    ensures goes { OnOk result (Goes (opening_of (D.geometry desk.old)) (D.seat desk.old) (times cost (stepped script.now (D.seat desk.old))) (D.seen desk.old) (D.seen desk.new) own.old own.new) }
    ensures through { OnOk result (IsThrough script.now own.new) }
    ensures jobs { own.new.jobs ≡ own.old.jobs }
    ensures begun { D.begun desk.new ≤ D.begun desk.old + cost }
{
    for _ in 0..cost {
        if own.full.is_some() {
            return Ok(());
        }
        if own.walk.next(script).is_none() {
            return Ok(());
        }
        statement(desk, script, own)?;
    }
    Ok(())
}

/// One job more.
fn job<D: Desk>(
    desk: &mut D,
    script: &Script,
    cost: u64,
    own: &mut Progress,
) -> Result<(), AllocError>
    requires good { D.good desk.old }
    requires script { RunsOn (D.geometry desk.old).registers script.now }
    requires cost { cost ≡ greatest_ticks script.now }
    requires going { own.old.full ≡ None }
    requires jobs { own.old.jobs < 2 ^ 32 }
    requires few { D.begun desk.old + cost ≤ MOST_CALLS }
    ensures good { D.good desk.new }
    ensures same { D.same desk.old desk.new }
    ensures geometry { D.geometry desk.new ≡ D.geometry desk.old }
    ensures seat { D.seat desk.new ≡ D.seat desk.old }
    ensures goes { OnOk result (Goes (opening_of (D.geometry desk.old)) (D.seat desk.old) (job_done script.now (D.seat desk.old)) (D.seen desk.old) (D.seen desk.new) own.old own.new) }
    ensures ended { OnOk result ((own.new.jobs ≡ own.old.jobs + 1) ⊎ (is_some own.new.full ≡ true)) }
    ensures jobs { OnOk result (own.new.jobs ≤ own.old.jobs + 1) }
    ensures begun { D.begun desk.new ≤ D.begun desk.old + cost }
{
    own.walk = Walk::start(own.jobs);
    statements(desk, script, cost, own)?;
    if own.full.is_none() {
        own.jobs += 1;
    }
    Ok(())
}

/// A task's jobs, one after the other, from the first on. The worker stops at a New that finds no room.
pub(crate) fn work<D: Desk>(
    alloc: Global,
    desk: &mut D,
    script: &Script,
    jobs: u64,
    cost: u64,
) -> Result<Progress, AllocError>
    requires good { D.good desk.old }
    requires script { RunsOn (D.geometry desk.old).registers script.now }
    requires cost { cost ≡ greatest_ticks script.now }
    requires jobs { jobs < 2 ^ 32 }
    requires few { D.begun desk.old + jobs * cost ≤ MOST_CALLS }
    ensures good { D.good desk.new }
    ensures same { D.same desk.old desk.new }
    ensures geometry { D.geometry desk.new ≡ D.geometry desk.old }
    ensures seat { D.seat desk.new ≡ D.seat desk.old }
    ensures told { IfOk result (λ own. D.seen desk.old ≡ [] → TellsCourse (D.geometry desk.old) (D.seat desk.old) jobs script.now (D.seen desk.new) own) }
    // each job has ended, unless a New found no room
    ensures ended { IfOk result (λ own. (own.jobs ≡ jobs) ⊎ (is_some own.full ≡ true)) }
{
    let mut own = Progress {
        walk: Walk::start(0),
        notes: Vec::new(alloc),
        jobs: 0,
        full: None,
    };
    for _ in 0..jobs {
        if own.full.is_some() {
            return Ok(own);
        }
        job(desk, script, cost, &mut own)?;
    }
    Ok(own)
}
