//! The numbers of the analysis. No sum in them is above 64 bits.

ghost use Rattle.std.specs.Prelude.{◌≡◌, ◌+◌, ◌^◌, ◌≤◌, All, IfOk, MatchOption, map, sum_by};
ghost use Rattle.std.specs.List.{list_any};
ghost use Rattle.hk_words.specs.Bounds.{most_places};
ghost use Rattle.hk_rta.specs.Busy.{IsOverfull};
ghost use Rattle.hk_sheet.specs.Valid.{IsSheet};
ghost use Rattle.hk_admit.specs.Analysis.{cycle_work, greatest, high_sizes, low_sizes, largest_low, largest_object, board_size, makes, some_makes, attempt_events, job_events, load_of, loads, low_events, base, IsBusy, events_in, most_owed, events_outside, events_in_reserve};
ghost use Rattle.hk_admit.specs.Ranges.{MOST_MADE, MOST_WORDS, MOST_ATTEMPT, MOST_EVENTS, IsInRange};

use hk_rta::{Load, MAX_TICKS};
use hk_script::{Script, largest};
use hk_sheet::{HeapKeys, High, Low, Sheet};
use hk_words::{MOST_PLACES, cycle_events, frame_events, object_events};
use std::alloc::{AllocError, Global};

/// The most events of a whole collection cycle.
pub(crate) fn cycle_work(sheet: &Sheet) -> u64
    requires { IsSheet sheet.now }
    ensures { result ≡ cycle_work sheet.now }
{
    let heap = sheet.heap;
    let tasks = sheet.high.items.len() + sheet.low.items.len();
    cycle_events(heap.registers, tasks as u8, heap.live, heap.alloc)
}

/// The size of the largest object that a high task makes, 0 where none makes any.
fn largest_high(tasks: &[High]) -> u32
    ensures value { result ≡ greatest (high_sizes tasks.now) }
    ensures small { result ≤ MOST_MADE }
{
    tasks
        .iter()
        .map(|task| largest(&task.script))
        .fold(0, |greatest, size| greatest.max(size))
}

/// The size of the largest object that a low task makes, 0 where none makes any.
fn largest_low(tasks: &[Low]) -> u32
    ensures value { result ≡ greatest (low_sizes tasks.now) }
    ensures small { result ≤ MOST_MADE }
{
    tasks
        .iter()
        .map(|task| largest(&task.script))
        .fold(0, |greatest, size| greatest.max(size))
}

/// The size of the board.
fn board_size(heap: &HeapKeys) -> u32
    ensures value { result ≡ board_size heap.now }
    ensures some { 1 ≤ result }
    ensures small { result ≤ MOST_WORDS }
{
    1 + u32::from(heap.refs) + u32::from(heap.nums)
}

/// The size of the largest object that there can be.
fn largest_object(sheet: &Sheet) -> u32
    ensures value { result ≡ largest_object sheet.now }
    ensures some { 1 ≤ result }
    ensures small { result ≤ MOST_WORDS }
{
    let made = largest_high(&sheet.high.items).max(largest_low(&sheet.low.items));
    board_size(&sheet.heap).max(made)
}

/// Whether a script makes an object.
#[tactic(auto, using(crate::proofs::Sizes::makes_is))]
fn makes(script: &Script) -> bool
    ensures { result ≡ makes script.now }
{
    largest(script) > 0
}

/// Whether the script of some high task makes an object.
fn some_high_makes(tasks: &[High]) -> bool
    ensures { result ≡ list_any (λ task. makes task.script) tasks.now }
{
    tasks.iter().any(|task| makes(&task.script))
}

/// Whether the script of some low task makes an object.
fn some_low_makes(tasks: &[Low]) -> bool
    ensures { result ≡ list_any (λ task. makes task.script) tasks.now }
{
    tasks.iter().any(|task| makes(&task.script))
}

/// Whether the script of some task makes an object.
fn some_makes(sheet: &Sheet) -> bool
    ensures { result ≡ some_makes sheet.now }
{
    some_high_makes(&sheet.high.items) || some_low_makes(&sheet.low.items)
}

/// The most events of an attempt that a job can spoil, 0 where no script makes an object.
pub(crate) fn attempt_events(sheet: &Sheet) -> u64
    ensures value { result ≡ attempt_events sheet.now }
    ensures small { result ≤ MOST_ATTEMPT }
{
    if some_makes(sheet) {
        let blackened = frame_events(sheet.heap.registers);
        let copied = object_events(largest_object(sheet));
        u64::from(blackened.max(copied))
    } else {
        0
    }
}

/// The events that a job of a high task can make the collector owe.
fn job_events(rate: u64, attempt: u64, task: &High) -> u64
    requires rate { rate ≤ 4096 }
    requires attempt { attempt ≤ MOST_ATTEMPT }
    requires task { IsInRange task.now }
    ensures value { result ≡ job_events rate attempt task.now }
    ensures small { result ≤ MOST_EVENTS }
{
    rate * task.words + attempt
}

/// What a high task brings at each arrival.
fn load_of(rate: u64, attempt: u64, task: &High) -> Load
    requires rate { rate ≤ 4096 }
    requires attempt { attempt ≤ MOST_ATTEMPT }
    requires task { IsInRange task.now }
    ensures { result ≡ load_of rate attempt task.now }
{
    Load {
        period: task.timing.period,
        jitter: task.timing.jitter,
        work: task.timing.cost + job_events(rate, attempt, task),
    }
}

/// What each high task brings at each arrival.
fn loads(alloc: Global, rate: u64, attempt: u64, tasks: &[High]) -> Result<Vec<Load>, AllocError>
    requires rate { rate ≤ 4096 }
    requires attempt { attempt ≤ MOST_ATTEMPT }
    requires tasks { All IsInRange tasks.now }
    ensures { IfOk result (λ v. v.items ≡ map (load_of rate attempt) tasks.now) }
{
    tasks
        .iter()
        .map(|task| load_of(rate, attempt, task))
        .collect(alloc)
}

/// The events that low tasks can make the collector owe before a busy period.
fn low_events(sheet: &Sheet, attempt: u64) -> u64
    requires readable { IsSheet sheet.now }
    requires attempt { attempt ≡ attempt_events sheet.now }
    requires small { attempt ≤ MOST_ATTEMPT }
    ensures value { result ≡ low_events sheet.now }
    ensures small { result ≤ MOST_EVENTS }
{
    let tasks = &sheet.low.items;
    if tasks.is_empty() {
        0
    } else {
        sheet.heap.rate * u64::from(largest_low(tasks)) + attempt
    }
}

/// The ticks that can wait as a busy period begins.
fn base(sheet: &Sheet, attempt: u64) -> u64
    requires readable { IsSheet sheet.now }
    requires attempt { attempt ≡ attempt_events sheet.now }
    requires small { attempt ≤ MOST_ATTEMPT }
    ensures value { result ≡ base sheet.now }
    ensures small { result ≤ most_places + MOST_EVENTS }
{
    if sheet.low.items.is_empty() {
        0
    } else {
        u64::from(MOST_PLACES) + low_events(sheet, attempt)
    }
}

/// The length of the busy period in ticks, None where it is above 2^24 or has no end.
pub(crate) fn busy(alloc: Global, sheet: &Sheet, attempt: u64) -> Result<Option<u64>, AllocError>
    requires readable { IsSheet sheet.now }
    requires attempt { attempt ≡ attempt_events sheet.now }
    requires small { attempt ≤ MOST_ATTEMPT }
    ensures { IfOk result (λ b. MatchOption b (IsOverfull (loads sheet.now) (base sheet.now) (2 ^ 24)) (λ x. IsBusy sheet.now x)) }
{
    let loads = loads(alloc, sheet.heap.rate, attempt, &sheet.high.items)?;
    Ok(hk_rta::busy(&loads, base(sheet, attempt), MAX_TICKS))
}

/// The events that the jobs of high tasks which become ready in a window can make the collector owe.
fn events_in(rate: u64, attempt: u64, window: u64, tasks: &[High]) -> u64
    requires rate { rate ≤ 4096 }
    requires attempt { attempt ≤ MOST_ATTEMPT }
    requires window { window ≤ 2 ^ 24 }
    requires tasks { All IsInRange tasks.now }
    requires few { sum_by (events_in rate attempt window) tasks.now ≤ 2 ^ 24 }
    ensures { result ≡ sum_by (events_in rate attempt window) tasks.now }
{
    tasks
        .iter()
        .map(|task| {
            let starts = (window + task.timing.jitter).div_ceil(task.timing.period);
            starts * job_events(rate, attempt, task)
        })
        .sum()
}

/// The most events that the collector can owe in the busy period.
pub(crate) fn most_owed(sheet: &Sheet, attempt: u64, busy: u64) -> u64
    requires readable { IsSheet sheet.now }
    requires attempt { attempt ≡ attempt_events sheet.now }
    requires small { attempt ≤ MOST_ATTEMPT }
    requires busy { IsBusy sheet.now busy }
    ensures { result ≡ most_owed sheet.now busy }
{
    low_events(sheet, attempt) + events_in(sheet.heap.rate, attempt, busy, &sheet.high.items)
}

/// The events that the collector does while the words outside the reserve are taken, but for those of one object.
pub(crate) fn events_outside(sheet: &Sheet) -> u64
    requires { IsSheet sheet.now }
    ensures { result ≡ events_outside sheet.now }
{
    let outside = sheet.heap.alloc.saturating_sub(sheet.heap.reserve);
    let sure = outside.saturating_sub(largest_low(&sheet.low.items));
    sheet.heap.rate * u64::from(sure)
}

/// The events that the words of the reserve stand for.
pub(crate) fn events_in_reserve(sheet: &Sheet) -> u64
    requires { IsSheet sheet.now }
    ensures { result ≡ events_in_reserve sheet.now }
{
    sheet.heap.rate * u64::from(sheet.heap.reserve)
}
