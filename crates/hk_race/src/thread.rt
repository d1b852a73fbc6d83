//! The worker's thread.
ghost use Rattle.std.specs.Prelude.{◌≡◌, ◌⊎◌, ℕ, ◌+◌, ◌*◌, ◌^◌, ◌<◌, ◌≤◌, [], IfOk, true, is_some};
ghost use Rattle.hk_script.specs.Cost.{greatest_ticks};
ghost use Rattle.hk_table.specs.Passes.{IsPassOf, known};
ghost use Rattle.hk_race.specs.Goes.{RunsOn, TellsCourse};
ghost use Rattle.hk_race.specs.declared.desk.TheConstants.{MOST_CALLS};

use crate::gate::Gate;
use crate::progress::Progress;
use crate::room::AtWork;
use crate::shared::Shared;
use crate::worker::work;
use hk_script::Script;
use hk_table::{Heap, Pass, Steps};
use std::alloc::{AllocError, Global};
use std::sync::Wait;
use std::sync::ledger::{Blank, Ledger};

/// Does a task's jobs on its pass, and counts itself out.
pub(crate) fn work_all<L: Ledger, R: Wait, G: Gate>(
    rt: &R,
    alloc: Global,
    heap: &Heap,
    gate: &G,
    at_work: &AtWork,
    pass: Pass,
    script: &Script,
    jobs: u64,
    cost: u64,
    blank: Blank,
) -> (Pass, Result<Progress, AllocError>)
    requires name { blank.name ≡ L.name }
    requires parts { blank.parts ≡ L.parts }
    requires some { 0 < L.parts }
    requires pass { IsPassOf heap.now pass }
    requires fresh { (known pass).seen ≡ [] }
    requires script { RunsOn heap.now.geometry.registers script.now }
    requires cost { cost ≡ greatest_ticks script.now }
    requires jobs { jobs < 2 ^ 32 }
    requires few { (known pass).begun + jobs * cost ≤ MOST_CALLS }
    ensures pass { IsPassOf heap.now result.0 }
    ensures seat { (known result.0).seat ≡ (known pass).seat }
    ensures told { IfOk result.1 (λ own. TellsCourse heap.now.geometry (known pass).seat jobs script.now (known result.0).seen own) }
    ensures ended { IfOk result.1 (λ own. (own.jobs ≡ jobs) ⊎ (is_some own.full ≡ true)) }
{
    let steps = Steps::<L>::new(blank);
    let mut shared = Shared {
        heap,
        pass,
        steps,
        rt,
        gate,
        at_work,
        calls: 0,
        patient: true,
    };
    let told = work(alloc, &mut shared, script, jobs, cost);
    at_work.worker_ended();
    let Shared { pass, .. } = shared;
    (pass, told)
}
