//! What is drawn of a run.
ghost use Rattle.std.specs.Prelude.{◌≡◌, [], IfOk};
ghost use Rattle.hk_chart.specs.Shapes.{is_same, with_shape, with_bar};

use crate::trace_line::Cause;
use std::alloc::{AllocError, Global};
use std::marker::Model;

/// The most shapes of a picture, a run of ticks that is still open aside.
pub const MAX_SHAPES: usize = 1_048_576;

/// Where a tick is drawn.
#[derive(Clone, Copy, Debug, PartialEq, Eq)]
pub enum Lane {
    /// In the lane of a task, by its place.
    Task(u8),
    /// In that of the collector.
    Collector,
    /// There too, in another colour: the end of an attempt that a task spoiled.
    Lost,
    /// In that of nobody.
    Nobody,
}

/// A run of equal ticks: the first and the last.
#[derive(Clone, Copy, Debug)]
pub struct Bar {
    pub lane: Lane,
    pub first: u32,
    pub last: u32,
}

/// A shape of a picture.
#[derive(Clone, Copy, Debug)]
pub enum Shape {
    /// A rectangle for a run of equal ticks.
    Bar(Bar),
    /// An attempt of so many events that was lost.
    Lost {
        tick: u32,
        events: u64,
    },
    /// What a task put out.
    Out {
        tick: u32,
        lane: u8,
        value: u64,
    },
    /// The fault of a job.
    Fault {
        tick: u32,
        lane: u8,
        job: u32,
        statement: u32,
        cause: Cause,
    },
    /// The arrival of a job.
    Arrival {
        moment: u64,
        lane: u8,
        job: u32,
    },
    /// The deadline of a job.
    Deadline {
        moment: u64,
        lane: u8,
        job: u32,
    },
    /// The end of a job with a tick, so many ticks after its arrival.
    End {
        tick: u32,
        lane: u8,
        job: u32,
        ticks: u32,
    },
}

/// The shapes in the order of the trace. A contract sees the list.
#[derive(Debug, Drop)]
pub struct Shapes {
    items: Vec<Shape>,
}

impl Model for Shapes {
    ghost use Rattle.std.specs.Prelude.{List};
    ghost use Rattle.hk_chart.specs.declared.shape.Shape.{Shape};

    ghost Value = { List Shape };

    ghost view = { λ shapes. shapes.items.items };
}

impl Lane {
    /// Whether it is the same.
    pub fn is(self, other: Lane) -> bool
        ensures { result ≡ is_same self other }
    {
        match (self, other) {
            (Lane::Task(a), Lane::Task(b)) => a == b,
            (Lane::Collector, Lane::Collector)
            | (Lane::Lost, Lane::Lost)
            | (Lane::Nobody, Lane::Nobody) => true,
            _ => false,
        }
    }
}

impl Shapes {
    /// None.
    pub fn new(alloc: Global) -> Shapes
        ensures { result ≡ [] }
    {
        Shapes {
            items: Vec::new(alloc),
        }
    }

    /// The list.
    pub fn all(&self) -> &[Shape]
        ensures { result.now ≡ self.now }
    {
        self.items.as_slice()
    }

    /// Adds a shape, if there is one.
    pub fn add(&mut self, shape: Option<Shape>) -> Result<(), AllocError>
        ensures { IfOk result (λ _. self.new ≡ with_shape self.old shape) }
    {
        match shape {
            Some(shape) => {
                self.items.push(shape)?;
                Ok(())
            }
            None => Ok(()),
        }
    }

    /// Adds a rectangle, if there is one.
    pub fn add_bar(&mut self, bar: Option<Bar>) -> Result<(), AllocError>
        ensures { IfOk result (λ _. self.new ≡ with_bar self.old bar) }
    {
        match bar {
            Some(bar) => {
                self.items.push(Shape::Bar(bar))?;
                Ok(())
            }
            None => Ok(()),
        }
    }
}
