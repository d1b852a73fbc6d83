ghost use Rattle.std.specs.Prelude.{◌≡◌, ℕ, ◌+◌, ◌<◌, ◌≤◌, List, length, IfSome, MatchOption};
ghost use Rattle.hk_ceiling.specs.Order.{last_of, overlaps, is_wrong, IsFirstWrong, NoneWrong};

use crate::ceilings::TaskSection;
use hk_rta::Timing;

/// The last section of a task at a place below `n`.
#[tactic(auto, unfolding(crate::specs::Order::last_of))]
fn last_of(sections: &[TaskSection], task: u8, n: usize) -> Option<usize>
    requires { n ≤ length sections.now }
    ensures value { result ≡ last_of sections.now task n }
    ensures within { IfSome result (λ p. p < n) }
{
    let mut found = None;
    for q in 0..n {
        if sections[q].task == task {
            found = Some(q);
        }
    }
    found
}

/// Whether the section begins before the end of its task's section before it.
fn overlaps(sections: &[TaskSection], q: usize) -> bool
    requires { q < length sections.now }
    ensures { result ≡ overlaps sections.now q }
{
    let section = sections[q];
    match last_of(sections, section.task, q) {
        None => false,
        Some(p) => {
            let before = sections[p];
            (section.start as u64) < before.start as u64 + before.len as u64
        }
    }
}

/// Whether the section at a place is wrong.
fn is_wrong(timings: &[Timing], sections: &[TaskSection], q: usize) -> bool
    requires { q < length sections.now }
    ensures { result ≡ is_wrong timings.now sections.now q }
{
    let section = sections[q];
    if section.task as usize >= timings.len() {
        return true;
    }
    if section.res > 63 {
        return true;
    }
    if section.len == 0 {
        return true;
    }
    if timings[section.task as usize].cost < section.start as u64 + section.len as u64 {
        return true;
    }
    overlaps(sections, q)
}

/// The first wrong section.
pub fn first_wrong(timings: &[Timing], sections: &[TaskSection]) -> Option<usize>
    ensures { MatchOption result (NoneWrong timings.now sections.now (length sections.now)) (λ q. IsFirstWrong timings.now sections.now q) }
{
    for q in 0..sections.len() {
        if is_wrong(timings, sections, q) {
            return Some(q);
        }
    }
    None
}
