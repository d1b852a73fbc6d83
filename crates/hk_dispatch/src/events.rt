//! The collector's events, and what each is to a session.
ghost use Rattle.std.specs.Prelude.{◌≡◌, if◌then◌else◌};
ghost use Rattle.hk_core.specs.Collect.{next_collected, work_by_collector};
ghost use Rattle.hk_collect.specs.Pays.{lost_in};
ghost use Rattle.hk_collect.specs.Used.{is_flip};
ghost use Rattle.hk_dispatch.specs.Ticks.{over_in};
ghost use Rattle.hk_dispatch.specs.Told.{told_event};

use crate::tick::{Chore, Tick, Who};
use hk_collect::{OwnedHeap, Work};

/// Does the next event of the collector, and answers what it did.
pub(crate) fn next_event(heap: &mut OwnedHeap) -> Work
    ensures next { heap.new ≡ next_collected heap.old }
    ensures work { result ≡ work_by_collector heap.old }
{
    heap.collect()
}

/// The events of the attempt that an event of the collector loses.
pub(crate) fn lost_in(work: Work) -> u32
    ensures { result ≡ lost_in work }
{
    match work {
        Work::Lost(events) => events,
        _ => 0,
    }
}

/// How many flips an event of the collector is.
pub(crate) fn flips_in(work: Work) -> u32
    ensures { result ≡ (if is_flip work then 1 else 0) }
{
    match work {
        Work::Flipped => 1,
        _ => 0,
    }
}

/// The words that an event of the collector found reserved, where these are more than the space has.
pub(crate) fn over_in(work: Work) -> Option<u64>
    ensures { result ≡ over_in work }
{
    match work {
        Work::LiveOver(words) => Some(words),
        _ => None,
    }
}

/// What the tick of the collector answers.
pub(crate) fn told_event(work: Work) -> Tick
    ensures { result ≡ told_event work (over_in work) }
{
    let chore = match work {
        Work::LiveOver(words) => return Tick::LiveOver(words),
        Work::Flipped => Chore::Flip,
        Work::Lost(events) => Chore::Lost(events),
        _ => Chore::Step,
    };
    Tick::Ran {
        who: Who::Gc(chore),
        out: None,
        end: None,
    }
}
