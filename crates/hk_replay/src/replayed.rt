//! How the program ends.
ghost use Rattle.std.specs.Prelude.{◌≡◌};
ghost use Rattle.hk_replay.specs.Tool.{number_of, ended_by};

use crate::judge::Verdict;

/// How the program ends. The number is its exit status.
#[derive(Clone, Copy, Debug, PartialEq, Eq)]
pub enum Replayed {
    /// The input is a log, and each line is the one for its action; or the log was written.
    Done,
    /// There was no memory. Nothing was written.
    Memory,
    /// The words are none that the program takes. One line was written.
    Usage,
    /// The input could not be read. Nothing was written.
    ReadFault,
    /// The output could not be written. What was taken is a prefix of the text.
    WriteFault,
    /// The input is a log, and a line isn't the one for its action. One line was written.
    Differs,
    /// The input is too long, or a line isn't of its form. One line was written.
    Log,
}

impl Replayed {
    /// The exit status.
    pub fn number(&self) -> u8
        ensures { result ≡ number_of self.now }
    {
        match self {
            Replayed::Done => 0,
            Replayed::Memory => 1,
            Replayed::Usage => 2,
            Replayed::ReadFault => 3,
            Replayed::WriteFault => 4,
            Replayed::Differs => 10,
            Replayed::Log => 11,
        }
    }

    /// How the program ends for what a text comes to.
    pub fn by(verdict: Verdict) -> Replayed
        ensures { result ≡ ended_by verdict }
    {
        match verdict {
            Verdict::Whole(_) => Replayed::Done,
            Verdict::Differs(_) => Replayed::Differs,
            Verdict::Log(_) => Replayed::Log,
        }
    }
}
