//! Where a program's bytes come from and where they go.
#![tactic(auto)]

ghost use Rattle.std.specs.Prelude.{◌≡◌};
ghost use Rattle.hk_io.specs.Status.{number_of};

mod buffer;
mod decimal;
mod faults;
mod gather;
mod line;
mod mem_sink;
mod mem_source;
mod spelling;
mod std_sink;
mod std_source;
mod streams;
#[cfg(test)]
mod tests;
mod trial;
mod whole;

pub use decimal::number;
pub use faults::{Failed, TakeFault};
pub use gather::{GATHER_ROOM, Gather};
pub use line::{LINE_ROOM, Line};
pub use mem_sink::MemSink;
pub use mem_source::MemSource;
pub use std_sink::StdSink;
pub use std_source::StdSource;
pub use streams::{Sink, Source};
pub use trial::Trial;
pub use whole::{MAX_INPUT, put_all, take_all};

/// How a program ends. The number is its exit status.
#[derive(Clone, Copy, Debug, PartialEq, Eq)]
pub enum Status {
    /// The whole text was written.
    Done,
    /// There was no memory, before the first tick. Nothing was written.
    Memory,
    /// The words are none that the program takes. One line was written.
    Usage,
    /// The input could not be read. Nothing was written.
    ReadFault,
    /// The output could not be written. What was taken is a prefix of the text.
    WriteFault,
    /// The input is too long, or no task sheet. One line was written.
    Sheet,
    /// The sheet is not admitted. One line was written.
    NotAdmitted,
    /// The collector found more words live than the sheet declares, and the run ended there. The whole text was written.
    Live,
    /// A task on threads found no room for an object and stopped there. The whole text was written.
    Full,
}

impl Status {
    /// The exit status.
    pub fn number(&self) -> u8
        ensures { result ≡ number_of self.now }
    {
        match self {
            Status::Done => 0,
            Status::Memory => 1,
            Status::Usage => 2,
            Status::ReadFault => 3,
            Status::WriteFault => 4,
            Status::Sheet => 5,
            Status::NotAdmitted => 6,
            Status::Live => 7,
            Status::Full => 8,
        }
    }
}
