//! The lines of a trace.

/// Why a job met a fault.
#[derive(Clone, Copy, Debug, PartialEq, Eq)]
pub enum Cause {
    /// The register that the operation went through was null.
    Nil,
    /// The object has no such field.
    Field,
}

/// Who got a tick. A task is named by its place among the tasks, the high ones first.
#[derive(Clone, Copy, Debug, PartialEq, Eq)]
pub enum Who {
    High(u8),
    Low(u8),
    /// The collector, for one event of a cycle.
    Step,
    /// The collector, which began a cycle.
    Flip,
    /// The collector, at the end of an attempt of so many events that a task spoiled.
    Lost(u64),
    /// The collector, which found more words live than are declared.
    Live,
    /// Nobody.
    Idle,
}

/// A line of a trace, without the name of a task that it brings in.
#[derive(Clone, Copy, Debug, PartialEq, Eq)]
pub enum TraceLine {
    /// The analysis of the heap: the events that are owed at most.
    Heap {
        debt: u64,
    },
    /// A high task, and its deadline in ticks.
    High {
        deadline: u32,
    },
    /// A low task.
    Low,
    /// Who got a tick.
    Tick {
        tick: u32,
        who: Who,
    },
    /// What a task put out at a tick.
    Out {
        tick: u32,
        lane: u8,
        value: u64,
    },
    /// The fault that a job met at a statement of its script.
    Fault {
        tick: u32,
        lane: u8,
        job: u32,
        statement: u32,
        cause: Cause,
    },
    /// A job that ended with a tick, so many ticks after it arrived.
    Ended {
        tick: u32,
        lane: u8,
        job: u32,
        ticks: u32,
    },
    /// What the jobs of a task came to.
    Done {
        lane: u8,
    },
    /// The ticks of the collector and those of nobody.
    Cycles {
        collector: u64,
        idle: u64,
    },
    /// The ticks of the run.
    End {
        ticks: u32,
    },
    /// The tick at which the run stands still, since more is live than is declared.
    Live {
        tick: u32,
    },
}
