//! What a tick of a session answers.

/// What an event of the collector was.
#[derive(Clone, Copy, Debug, PartialEq, Eq)]
pub enum Chore {
    /// Neither of the two below.
    Step,
    /// The flip, which begins a collection cycle.
    Flip,
    /// The end of an attempt that was lost, with the events of the attempt, this one included. They are owed again.
    Lost(u32),
}

/// Who got a tick. A task is named by its place in its list of the sheet, counted from 0.
#[derive(Clone, Copy, Debug, PartialEq, Eq)]
pub enum Who {
    /// A high task.
    Hi(u8),
    /// A low task.
    Lo(u8),
    /// The collector.
    Gc(Chore),
    /// Nobody.
    Idle,
}

/// Why a job ended before the end of its script: an operation that could not be begun.
#[derive(Clone, Copy, Debug, PartialEq, Eq)]
pub struct JobFault {
    /// The number of its statement in the script, counted from 1.
    pub statement: u32,
    /// The register that it goes through was null; else its object has no such field.
    pub nil: bool,
}

/// The end of a job.
#[derive(Clone, Copy, Debug, PartialEq, Eq)]
pub struct End {
    /// The number of the job within its task, counted from 0.
    pub job: u64,
    /// The ticks from the job's arrival to its end.
    pub ticks: u64,
    /// The fault that ended it, if any.
    pub fault: Option<JobFault>,
}

/// What a call of a session's tick was.
#[derive(Clone, Copy, Debug, PartialEq, Eq)]
pub enum Tick {
    /// A tick was given.
    Ran {
        /// Who got it.
        who: Who,
        /// What it put out, if anything.
        out: Option<u64>,
        /// The end of the job that it ended, if any.
        end: Option<End>,
    },
    /// The collector found so many words reserved for evacuation, more than the space has, in this tick or in an earlier
    /// one. The session stands still.
    LiveOver(u64),
    /// The run is over: every tick of the sheet was given.
    Over,
}
