//! Orders of tasks, and sets of tasks that no order has room for. Neither takes memory.
ghost use Rattle.std.specs.Prelude.{◌≡◌, ◌<◌, ◌≤◌, ◌↔◌, take, length, slice_index, IsTrue, Contains};

use hk_rta::MAX_TASKS;
use std::marker::Model;

/// An order of tasks, the one that goes first in front. A contract sees the list of the tasks' indices.
#[derive(Debug, Drop)]
pub struct Order {
    tasks: [u8; MAX_TASKS],
    count: usize,
}

impl Model for Order {
    ghost use Rattle.std.specs.Prelude.{List, ℕ, take, ◌≤◌};

    ghost Value = { List ℕ };

    ghost view = { λ order. take order.count order.tasks };

    ghost invariant = { λ order. order.count ≤ 31 };
}

/// Tasks for which there is no order: none of them ends within its deadline where all the others go first. A contract
/// sees the list of their indices, in rising order.
#[derive(Debug, Drop)]
pub struct Stuck {
    tasks: [u8; MAX_TASKS],
    count: usize,
}

impl Model for Stuck {
    ghost use Rattle.std.specs.Prelude.{List, ℕ, take, ◌≤◌};

    ghost Value = { List ℕ };

    ghost view = { λ stuck. take stuck.count stuck.tasks };

    ghost invariant = { λ stuck. stuck.count ≤ 31 };
}

impl Order {
    /// The order of the first indices of these.
    pub(crate) fn of(tasks: [u8; MAX_TASKS], count: usize) -> Order
        requires { count ≤ 31 }
        ensures { result ≡ take count tasks }
    {
        Order { tasks, count }
    }

    /// How many tasks there are.
    pub fn len(&self) -> usize
        ensures { result ≡ length self.now }
    {
        self.count
    }

    /// The task at a place, by its index.
    pub fn at(&self, place: u8) -> u8
        requires { place < length self.now }
        ensures { result ≡ slice_index self.now place }
    {
        self.tasks[usize::from(place)]
    }
}

impl Stuck {
    /// The set of the first indices of these.
    pub(crate) fn of(tasks: [u8; MAX_TASKS], count: usize) -> Stuck
        requires { count ≤ 31 }
        ensures { result ≡ take count tasks }
    {
        Stuck { tasks, count }
    }

    /// How many tasks there are.
    pub fn len(&self) -> usize
        ensures count { result ≡ length self.now }
        ensures few { result ≤ 31 }
    {
        self.count
    }

    /// The task at a place, by its index.
    pub fn at(&self, place: u8) -> u8
        requires { place < length self.now }
        ensures { result ≡ slice_index self.now place }
    {
        self.tasks[place as usize]
    }

    /// Whether a task is one of the set.
    pub fn has(&self, task: u8) -> bool
        ensures { IsTrue result ↔ Contains self.now task }
    {
        self.tasks[..self.count].contains(&task)
    }
}
