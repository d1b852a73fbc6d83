//! How the program ends.
ghost use Rattle.std.specs.Prelude.{◌≡◌};
ghost use Rattle.hk_chart.specs.Tool.{number_of};

/// How the program ends. The number is its exit status.
#[derive(Clone, Copy, Debug, PartialEq, Eq)]
pub enum Charted {
    /// The picture was written.
    Done,
    /// There was no memory. Nothing was written.
    Memory,
    /// The words are none that the program takes. One line was written.
    Usage,
    /// The input could not be read. Nothing was written.
    ReadFault,
    /// The output could not be written. What was taken is a prefix of the text.
    WriteFault,
    /// The input is no trace, or it is too long. One line was written.
    Trace,
}

impl Charted {
    /// The exit status.
    pub fn number(&self) -> u8
        ensures { result ≡ number_of self.now }
    {
        match self {
            Charted::Done => 0,
            Charted::Memory => 1,
            Charted::Usage => 2,
            Charted::ReadFault => 3,
            Charted::WriteFault => 4,
            Charted::Trace => 12,
        }
    }
}
