//! How far a trace has come, and which line may follow.
ghost use Rattle.std.specs.Prelude.{◌≡◌};
ghost use Rattle.hk_chart.specs.Progress.{begins_ticks, goes_on, fits, turn_of, stage_after_tick, after_tick, is_of_turn, after_out, after_fault, after_ended, after_done, after_high, after_low, after_cycles, after_live, after_line, is_over, opening};

use crate::task::MAX_TASKS;
use crate::trace_line::{TraceLine, Who};

/// The most ticks of a run.
pub const MAX_TICKS: u32 = 16_777_216;

/// What the last line was.
#[derive(Clone, Copy, Debug, PartialEq, Eq)]
pub enum Stage {
    /// There was none.
    Start,
    /// The analysis of the heap, or a high task.
    Highs,
    /// A low task.
    Lows,
    /// Who got a tick.
    Tick,
    /// What a job put out.
    Out,
    /// The fault of a job.
    Fault,
    /// The end of a job.
    Ended,
    /// The tick at which the run stands still.
    Standing,
    /// What the jobs of a task came to.
    Closing,
    /// The counts of the collector.
    Counted,
    /// The last one.
    Over,
}

/// How far a trace has come.
#[derive(Clone, Copy, Debug)]
pub struct Progress {
    pub stage: Stage,
    /// The high tasks, and all tasks.
    pub high: u8,
    pub tasks: u8,
    /// The tasks whose jobs were counted.
    pub done: u8,
    /// The ticks.
    pub ticks: u32,
    /// The task that had the last tick, by its place.
    pub turn: Option<u8>,
    /// The events that are owed at most, the ticks of the collector and those of nobody, as the trace gives them.
    pub debt: u64,
    pub collector: u64,
    pub idle: u64,
}

impl Stage {
    /// Whether the line of a tick may follow.
    fn begins_ticks(self) -> bool
        ensures { result ≡ begins_ticks self }
    {
        match self {
            Stage::Highs | Stage::Lows | Stage::Tick | Stage::Out | Stage::Ended => true,
            Stage::Start
            | Stage::Fault
            | Stage::Standing
            | Stage::Closing
            | Stage::Counted
            | Stage::Over => false,
        }
    }

    /// Whether the last lines may follow, or go on.
    fn goes_on(self) -> bool
        ensures { result ≡ goes_on self }
    {
        match self {
            Stage::Tick | Stage::Out | Stage::Ended | Stage::Closing => true,
            Stage::Start
            | Stage::Highs
            | Stage::Lows
            | Stage::Fault
            | Stage::Standing
            | Stage::Counted
            | Stage::Over => false,
        }
    }
}

/// Whether a task is of its kind, by its place.
fn fits(high: u8, who: Who) -> bool
    ensures { result ≡ fits high who }
{
    match who {
        Who::High(lane) => lane < high,
        Who::Low(lane) => lane >= high,
        Who::Step | Who::Flip | Who::Lost(_) | Who::Live | Who::Idle => true,
    }
}

/// The task that has a tick.
fn turn_of(who: Who) -> Option<u8>
    ensures { result ≡ turn_of who }
{
    match who {
        Who::High(lane) | Who::Low(lane) => Some(lane),
        Who::Step | Who::Flip | Who::Lost(_) | Who::Live | Who::Idle => None,
    }
}

/// What the line of a tick is.
fn stage_after_tick(who: Who) -> Stage
    ensures { result ≡ stage_after_tick who }
{
    match who {
        Who::Live => Stage::Standing,
        Who::High(_) | Who::Low(_) | Who::Step | Who::Flip | Who::Lost(_) | Who::Idle => {
            Stage::Tick
        }
    }
}

impl Progress {
    /// No line was read.
    pub fn opening() -> Progress
        ensures { result ≡ opening }
    {
        Progress {
            stage: Stage::Start,
            high: 0,
            tasks: 0,
            done: 0,
            ticks: 0,
            turn: None,
            debt: 0,
            collector: 0,
            idle: 0,
        }
    }

    /// Whether the last line was read.
    pub fn is_over(self) -> bool
        ensures { result ≡ is_over self.stage }
    {
        match self.stage {
            Stage::Over => true,
            Stage::Start
            | Stage::Highs
            | Stage::Lows
            | Stage::Tick
            | Stage::Out
            | Stage::Fault
            | Stage::Ended
            | Stage::Standing
            | Stage::Closing
            | Stage::Counted => false,
        }
    }

    /// After a high task.
    #[tactic(auto, unfolding(crate::specs::Progress::after_high))]
    fn after_high(self) -> Option<Progress>
        ensures { result ≡ after_high self }
    {
        if self.stage == Stage::Highs && self.tasks < MAX_TASKS {
            Some(Progress {
                high: self.tasks + 1,
                tasks: self.tasks + 1,
                ..self
            })
        } else {
            None
        }
    }

    /// After a low task.
    #[tactic(auto, unfolding(crate::specs::Progress::after_low))]
    fn after_low(self) -> Option<Progress>
        ensures { result ≡ after_low self }
    {
        if (self.stage == Stage::Highs || self.stage == Stage::Lows) && self.tasks < MAX_TASKS {
            Some(Progress {
                stage: Stage::Lows,
                tasks: self.tasks + 1,
                ..self
            })
        } else {
            None
        }
    }

    /// After a tick.
    #[tactic(auto, unfolding(crate::specs::Progress::after_tick))]
    fn after_tick(self, tick: u32, who: Who) -> Option<Progress>
        ensures { result ≡ after_tick self tick who }
    {
        if self.stage.begins_ticks()
            && tick == self.ticks
            && tick < MAX_TICKS
            && fits(self.high, who)
        {
            Some(Progress {
                stage: stage_after_tick(who),
                ticks: tick + 1,
                turn: turn_of(who),
                ..self
            })
        } else {
            None
        }
    }

    /// Whether a task had the last tick, which is this one.
    fn is_of_turn(self, tick: u32, lane: u8) -> bool
        ensures { result ≡ is_of_turn self tick lane }
    {
        match self.turn {
            Some(turn) => turn == lane && u64::from(self.ticks) == u64::from(tick) + 1,
            None => false,
        }
    }

    /// After what a job put out.
    #[tactic(auto, unfolding(crate::specs::Progress::after_out))]
    fn after_out(self, tick: u32, lane: u8) -> Option<Progress>
        ensures { result ≡ after_out self tick lane }
    {
        if self.stage == Stage::Tick && self.is_of_turn(tick, lane) {
            Some(Progress {
                stage: Stage::Out,
                ..self
            })
        } else {
            None
        }
    }

    /// After the fault of a job.
    #[tactic(auto, unfolding(crate::specs::Progress::after_fault))]
    fn after_fault(self, tick: u32, lane: u8) -> Option<Progress>
        ensures { result ≡ after_fault self tick lane }
    {
        if (self.stage == Stage::Tick || self.stage == Stage::Out) && self.is_of_turn(tick, lane) {
            Some(Progress {
                stage: Stage::Fault,
                ..self
            })
        } else {
            None
        }
    }

    /// After the end of a job.
    #[tactic(auto, unfolding(crate::specs::Progress::after_ended))]
    fn after_ended(self, tick: u32, lane: u8, ticks: u32) -> Option<Progress>
        ensures { result ≡ after_ended self tick lane ticks }
    {
        if (self.stage == Stage::Tick || self.stage == Stage::Out || self.stage == Stage::Fault)
            && self.is_of_turn(tick, lane)
            && 0 < ticks
            && ticks <= self.ticks
        {
            Some(Progress {
                stage: Stage::Ended,
                ..self
            })
        } else {
            None
        }
    }

    /// After what the jobs of a task came to.
    #[tactic(auto, unfolding(crate::specs::Progress::after_done))]
    fn after_done(self, lane: u8) -> Option<Progress>
        ensures { result ≡ after_done self lane }
    {
        if self.stage.goes_on() && lane == self.done && lane < self.tasks {
            Some(Progress {
                stage: Stage::Closing,
                done: lane + 1,
                ..self
            })
        } else {
            None
        }
    }

    /// After the counts of the collector.
    #[tactic(auto, unfolding(crate::specs::Progress::after_cycles))]
    fn after_cycles(self, collector: u64, idle: u64) -> Option<Progress>
        ensures { result ≡ after_cycles self collector idle }
    {
        if self.stage.goes_on() && self.done == self.tasks {
            Some(Progress {
                stage: Stage::Counted,
                collector,
                idle,
                ..self
            })
        } else {
            None
        }
    }

    /// After the line of the tick at which the run stands still.
    #[tactic(auto, unfolding(crate::specs::Progress::after_live))]
    fn after_live(self, tick: u32) -> Option<Progress>
        ensures { result ≡ after_live self tick }
    {
        if self.stage == Stage::Standing && u64::from(self.ticks) == u64::from(tick) + 1 {
            Some(Progress {
                stage: Stage::Over,
                ..self
            })
        } else {
            None
        }
    }

    /// How far the trace has come after one more line, where it may follow.
    #[tactic(auto, unfolding(crate::specs::Progress::after_line))]
    pub fn after_line(self, line: TraceLine) -> Option<Progress>
        ensures { result ≡ after_line self line }
    {
        match line {
            TraceLine::Heap { debt } => {
                if self.stage == Stage::Start {
                    Some(Progress {
                        stage: Stage::Highs,
                        debt,
                        ..self
                    })
                } else {
                    None
                }
            }
            TraceLine::High { .. } => self.after_high(),
            TraceLine::Low => self.after_low(),
            TraceLine::Tick { tick, who } => self.after_tick(tick, who),
            TraceLine::Out { tick, lane, .. } => self.after_out(tick, lane),
            TraceLine::Fault { tick, lane, .. } => self.after_fault(tick, lane),
            TraceLine::Ended {
                tick,
                lane,
                ticks,
                ..
            } => self.after_ended(tick, lane, ticks),
            TraceLine::Done { lane } => self.after_done(lane),
            TraceLine::Cycles { collector, idle } => self.after_cycles(collector, idle),
            TraceLine::End { ticks } => {
                if self.stage == Stage::Counted && ticks == self.ticks {
                    Some(Progress {
                        stage: Stage::Over,
                        ..self
                    })
                } else {
                    None
                }
            }
            TraceLine::Live { tick } => self.after_live(tick),
        }
    }
}
