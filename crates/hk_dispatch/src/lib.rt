//! Sessions: who gets each tick. High jobs go by a choice among those that are ready; the collector pays for what was taken
//! after them, and before low jobs go on.
#![tactic(auto)]

mod events;
mod laws;
mod needs;
mod operation;
mod pick;
mod roster;
mod run;
mod schedule;
mod seats;
mod session;
mod stand;
#[cfg(test)]
mod tests;
mod tick;

pub use hk_plan::Ready;
pub use laws::{
    collector_never_waits, cycles_end_in_time, debt_is_accounted, debt_stays_within, heap_is_legal,
    idle_exactly, jobs_keep_scripts, live_over_has_cause, losses_are_few, no_new_is_refused,
    no_task_is_spent, rules_decide, session_is_replay,
};
pub use operation::{Left, ask, operate};
pub use pick::{First, Pick};
pub use schedule::{ends_are_alone, jobs_end_in_time};
pub use session::{Session, SessionBy};
pub use tick::{Chore, End, JobFault, Tick, Who};
