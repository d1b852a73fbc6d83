//! All orders of a few tasks, tried one after the other.
use super::{Timing, add_index, expect_answer};
use hk_words::Draws;
use std::alloc::Global;
use std::process::Abort;

/// How many lists there are of so many numbers below so many.
const LISTS: [usize; 6] = [1, 1, 4, 27, 256, 3125];

/// A task, drawn.
fn drawn_task(draws: &mut Draws) -> Timing {
    let cost = draws.below(4);
    let period = draws.below(16);
    let deadline = draws.below(20);
    let jitter = draws.below(4);
    Timing {
        cost: 1 + cost % 4,
        period: 4 + period % 16,
        deadline: 4 + deadline % 20,
        jitter: jitter % 4,
    }
}

/// So many tasks, drawn.
fn drawn(rt: &impl Abort, alloc: Global, draws: &mut Draws, count: usize) -> Vec<Timing> {
    let mut tasks = Vec::new(alloc);
    for _ in 0..count {
        tasks.push(drawn_task(draws)).expect(rt, "no memory");
    }
    tasks
}

/// What a task and those before it ask for in a window.
fn asked(tasks: &[Timing], before: &[usize], task: usize, window: u64) -> u64 {
    let mut asked: u64 = 0;
    for (index, other) in tasks.iter().enumerate() {
        let arrivals = if index == task {
            1
        } else if before.contains(&index) {
            window
                .saturating_add(other.jitter)
                .div_ceil(other.period.max(1))
        } else {
            0
        };
        asked = asked.saturating_add(arrivals.saturating_mul(other.cost));
    }
    asked
}

/// Whether some window up to the deadline is exactly what a task and those before it ask for.
fn is_in_time(tasks: &[Timing], before: &[usize], task: usize) -> bool {
    let Some(own) = tasks.get(task) else {
        return false;
    };
    for window in 1..=own.deadline.saturating_sub(own.jitter) {
        if asked(tasks, before, task, window) == window {
            return true;
        }
    }
    false
}

/// The digits of a number by a base, the lowest first.
fn digits(rt: &impl Abort, alloc: Global, number: usize, base: usize, count: usize) -> Vec<usize> {
    let mut digits = Vec::new(alloc);
    let mut rest = number;
    for _ in 0..count {
        digits.push(rest % base.max(1)).expect(rt, "no memory");
        rest /= base.max(1);
    }
    digits
}

/// Whether a list has no number twice, and each task is in time behind those before it.
fn keeps_deadlines(tasks: &[Timing], order: &[usize]) -> bool {
    for (place, task) in order.iter().enumerate() {
        let before = &order[..place];
        if before.contains(task) || !is_in_time(tasks, before, *task) {
            return false;
        }
    }
    true
}

/// The order that keeps all deadlines, of these the one with the greatest task in the last place, and so on towards the
/// first: its list is the greatest number by its digits.
fn best_order(rt: &impl Abort, alloc: Global, tasks: &[Timing]) -> Option<Vec<usize>> {
    let count = tasks.len();
    for number in (0..*LISTS.get(count).unwrap_or(&0)).rev() {
        let order = digits(rt, alloc, number, count, count);
        if keeps_deadlines(tasks, &order) {
            return Some(order);
        }
    }
    None
}

/// The tasks that a number names by its bits.
fn set(rt: &impl Abort, alloc: Global, number: usize, count: usize) -> Vec<usize> {
    let bits = digits(rt, alloc, number, 2, count);
    let mut set = Vec::new(alloc);
    for (task, bit) in bits.iter().enumerate() {
        if *bit == 1 {
            set.push(task).expect(rt, "no memory");
        }
    }
    set
}

/// Whether none of some tasks is in time behind the others.
fn none_is_last(tasks: &[Timing], set: &[usize]) -> bool {
    for task in set {
        if is_in_time(tasks, set, *task) {
            return false;
        }
    }
    true
}

/// Whether a task is in some set of which none can be the last.
fn is_blocked(rt: &impl Abort, alloc: Global, tasks: &[Timing], task: usize) -> bool {
    for number in 0..32 {
        let set = set(rt, alloc, number, tasks.len());
        if set.contains(&task) && none_is_last(tasks, &set) {
            return true;
        }
    }
    false
}

/// The line of an order.
fn order_line(rt: &impl Abort, alloc: Global, order: &[usize]) -> String {
    let mut line = String::from_str(alloc, "order").expect(rt, "no memory");
    for task in order {
        add_index(rt, alloc, &mut line, *task);
    }
    line
}

/// The line of the tasks of all sets of which none can be the last.
fn stuck_line(rt: &impl Abort, alloc: Global, tasks: &[Timing]) -> String {
    let mut line = String::from_str(alloc, "stuck").expect(rt, "no memory");
    for task in 0..tasks.len() {
        if is_blocked(rt, alloc, tasks, task) {
            add_index(rt, alloc, &mut line, task);
        }
    }
    line
}

/// The line that is to be answered for some tasks.
fn wanted(rt: &impl Abort, alloc: Global, tasks: &[Timing]) -> String {
    match best_order(rt, alloc, tasks) {
        Some(order) => order_line(rt, alloc, &order),
        None => stuck_line(rt, alloc, tasks),
    }
}

/// Looks at the answer for some tasks, and tells whether there is an order.
fn check(rt: &impl Abort, alloc: Global, tasks: &[Timing]) -> bool {
    let wanted = wanted(rt, alloc, tasks);
    expect_answer(rt, alloc, tasks, wanted.as_str());
    wanted.as_str().starts_with("order")
}

#[test]
fn all_orders(rt: HostRuntime) {
    let alloc = rt.alloc();
    let mut draws = Draws { state: 2026 };
    let mut orders: u32 = 0;
    let mut stuck: u32 = 0;
    for count in 0..6 {
        for _ in 0..40 {
            let tasks = drawn(&rt, alloc, &mut draws, count);
            if check(&rt, alloc, &tasks) {
                orders = orders.saturating_add(1);
            } else {
                stuck = stuck.saturating_add(1);
            }
        }
    }
    // both answers come often
    assert!(rt; orders > 80 && stuck > 40, "{orders} and {stuck}");
}
