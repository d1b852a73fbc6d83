//! Reads a trace byte by byte.
ghost use Rattle.std.specs.Prelude.{◌≡◌, ◌≢◌, ◌≤◌, ◌+◌, ◌<◌, ◌++◌, ◌∷◌, [], length, Ok, Err, None, IfOk, OnOk, IsErrOf};
ghost use Rattle.std.specs.Io.KnownBytes.{IsAtEnd};
ghost use Rattle.hk_io.specs.Faults.{Rose};
ghost use Rattle.hk_chart.specs.Reading.{opening_reader, after_end_of_line, after_byte, finished, at_end, IsAnswer, IsCounted, HasTaken, HasRead};

use crate::chart::Chart;
use crate::shape::MAX_SHAPES;
use crate::text::Text;
use crate::window::Window;
use hk_io::{Failed, LINE_ROOM, Source};
use std::alloc::{AllocError, Global};

/// The most bytes of a trace.
pub const MAX_BYTES: u64 = 4_294_967_296;

/// How many bytes are read at once.
const PIECE: usize = 65_536;

/// Why there is no picture.
#[derive(Clone, Copy, Debug, PartialEq, Eq)]
pub enum Stop {
    /// No trace has this line there. Lines are counted from 1.
    Line(u64),
    /// There are too many bytes, or the picture has too many shapes.
    Long,
}

/// Why there is no picture of an input.
#[derive(Clone, Copy, Debug, PartialEq, Eq)]
pub enum ReadFault {
    Stop(Stop),
    /// A read failed.
    Failed,
    /// There was no memory.
    Memory,
}

/// A trace that is read: the picture so far, the bytes of the line that has begun, the lines before it, and the bytes.
#[derive(Drop)]
pub struct Reader {
    chart: Chart,
    line: Text,
    lines: u64,
    bytes: u64,
}

impl Reader {
    /// Nothing was read.
    fn new(alloc: Global) -> Reader
        ensures { result ≡ opening_reader }
    {
        Reader {
            chart: Chart::opening(alloc),
            line: Text::new(alloc),
            lines: 0,
            bytes: 0,
        }
    }

    /// Takes the newline of a line.
    #[tactic(auto, unfolding(crate::specs::Reading::after_end_of_line))]
    fn end_line(&mut self, alloc: Global, window: Window) -> Result<Option<Stop>, AllocError>
        requires lines { self.old.lines < self.old.bytes }
        requires bytes { self.old.bytes ≤ MAX_BYTES }
        ensures answer { IfOk result (IsAnswer (after_end_of_line window self.old) self.new) }
        ensures lines { self.new.lines ≤ self.old.lines + 1 }
        ensures bytes { self.new.bytes ≡ self.old.bytes }
    {
        if !self.chart.take_line(alloc, window, self.line.bytes())? {
            return Ok(Some(Stop::Line(self.lines + 1)));
        }
        if self.chart.shapes.all().len() > MAX_SHAPES {
            return Ok(Some(Stop::Long));
        }
        self.line.clear();
        self.lines += 1;
        Ok(None)
    }

    /// Takes a byte.
    #[tactic(auto, unfolding(crate::specs::Reading::after_byte))]
    fn take_byte(
        &mut self,
        alloc: Global,
        window: Window,
        byte: u8,
    ) -> Result<Option<Stop>, AllocError>
        requires { IsCounted self.old }
        ensures answer { IfOk result (IsAnswer (after_byte window self.old byte) self.new) }
        ensures counted { IsCounted self.new }
        ensures bytes { IfOk result (λ stop. stop ≡ None → self.new.bytes ≡ self.old.bytes + 1) }
    {
        if self.bytes >= MAX_BYTES {
            return Ok(Some(Stop::Long));
        }
        if byte != b'\n' && self.line.bytes().len() + 1 >= LINE_ROOM {
            return Ok(Some(Stop::Line(self.lines + 1)));
        }
        self.bytes += 1;
        if byte == b'\n' {
            return self.end_line(alloc, window);
        }
        self.line.add_byte(byte)?;
        Ok(None)
    }

    /// Takes some bytes.
    fn take_piece(
        &mut self,
        alloc: Global,
        window: Window,
        piece: &[u8],
    ) -> Result<Option<Stop>, AllocError>
        requires { IsCounted self.old }
        ensures taken { IfOk result (HasTaken window self.old piece.now self.new) }
        ensures counted { IsCounted self.new }
        ensures bytes { IfOk result (λ stop. stop ≡ None → self.new.bytes ≡ self.old.bytes + length piece.now) }
    {
        for byte in piece {
            let stop = self.take_byte(alloc, window, *byte)?;
            match stop {
                Some(why) => return Ok(Some(why)),
                None => {}
            }
        }
        Ok(None)
    }

    /// Takes the end of the input.
    #[tactic(auto, unfolding(crate::specs::Reading::at_end))]
    fn finish(self) -> Result<Chart, ReadFault>
        requires { IsCounted self }
        ensures drawn { IfOk result (λ chart. at_end self ≡ Ok chart) }
        ensures stopped { (stop : Stop) → IsErrOf result (ReadFault.Stop stop) → at_end self ≡ Err stop }
        ensures kept { result ≢ Err ReadFault.Failed }
    {
        let mut chart = self.chart;
        if chart.progress.is_over() && self.line.bytes().is_empty() {
            match chart.shapes.add_bar(chart.current) {
                Ok(()) => Ok(chart),
                Err(AllocError) => Err(ReadFault::Memory),
            }
        } else {
            Err(ReadFault::Stop(Stop::Line(self.lines + 1)))
        }
    }
}

/// Reads a trace to its end, and draws the ticks of a window. Reading stops at the first line that no trace has there, and
/// where there is too much.
pub fn read_chart<S: Source>(
    alloc: Global,
    window: Window,
    source: &mut S,
) -> Result<Chart, ReadFault>
    ensures drawn { IfOk result (λ chart. HasRead window (S.left source.old) (Ok chart)) }
    ensures end { OnOk result (IsAtEnd (S.left source.new)) }
    ensures stopped { (stop : Stop) → IsErrOf result (ReadFault.Stop stop) → HasRead window (S.left source.old) (Err stop) }

    // A read failed, or the count of faults stayed as it was.
    ensures failed { IsErrOf result ReadFault.Failed → Rose (S.faults source.old) (S.faults source.new) }
    ensures kept { ¬ (IsErrOf result ReadFault.Failed) → S.faults source.new ≡ S.faults source.old }
    ensures later { S.faults source.old ≤ S.faults source.new }
{
    let mut reader = Reader::new(alloc);
    let mut piece = [0; PIECE];
    while reader.bytes <= MAX_BYTES {
        match source.read(&mut piece[..]) {
            Ok(0) => return reader.finish(),
            Ok(count) => match reader.take_piece(alloc, window, &piece[..count]) {
                Ok(None) => {}
                Ok(Some(stop)) => return Err(ReadFault::Stop(stop)),
                Err(AllocError) => return Err(ReadFault::Memory),
            },
            Err(Failed) => return Err(ReadFault::Failed),
        }
    }
    Err(ReadFault::Stop(Stop::Long))
}
