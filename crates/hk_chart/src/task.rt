//! The tasks that the lines of a trace name.
ghost use Rattle.std.specs.Prelude.{◌≡◌, ◌≤◌, length};

use std::marker::Model;

/// The most tasks of a run.
pub const MAX_TASKS: u8 = 31;

/// The most bytes of a name.
pub const MAX_NAME: usize = 16;

/// The name of a task. A contract sees the list of its bytes.
#[derive(Debug, Drop)]
pub struct Name {
    pub items: Vec<u8>,
}

impl Model for Name {
    ghost use Rattle.std.specs.Prelude.{List, ℕ};

    ghost Value = { List ℕ };

    ghost view = { λ name. name.items.items };
}

/// A task: its name, and the deadline of a high one in ticks.
#[derive(Debug, Drop)]
pub struct Task {
    pub name: Name,
    pub deadline: Option<u32>,
}

/// The tasks in their order, the high ones first. A contract sees the list.
#[derive(Debug, Drop)]
pub struct Tasks {
    pub items: Vec<Task>,
}

impl Model for Tasks {
    ghost use Rattle.std.specs.Prelude.{List};
    ghost use Rattle.hk_chart.specs.declared.task.Task.{Task};

    ghost Value = { List Task };

    ghost view = { λ tasks. tasks.items.items };
}

impl Tasks {
    /// The list.
    pub fn all(&self) -> &[Task]
        ensures { result.now ≡ self.now }
    {
        self.items.as_slice()
    }
}
