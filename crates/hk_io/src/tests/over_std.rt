//! The two adapters over std, over readers and writers that fail.
ghost use Rattle.std.specs.Prelude.{◌≤◌, IfOk};

use crate::{Failed, Sink, Source, StdSink, StdSource, TakeFault, put_all, take_all};
use std::io;
use std::io::{ErrorKind, Read, Write};

/// A reader and a writer that gives or takes a few bytes a call, so many in all, and fails at the call with this number.
/// It doesn't tell its bytes.
#[derive(Drop)]
struct Faltering {
    left: usize,
    fails: u64,
    calls: u64,
}

impl Faltering {
    fn new(left: usize, fails: u64) -> Faltering {
        Faltering {
            left,
            fails,
            calls: 0,
        }
    }

    /// How many bytes the next call moves, of so many at most.
    fn step(&mut self, most: usize) -> io::Result<usize>
        ensures { IfOk result (λ count. count ≤ most) }
    {
        let fails = self.calls == self.fails;
        self.calls = self.calls.saturating_add(1);
        if fails {
            return Err(io::Error::from(ErrorKind::Other));
        }
        let count = most.min(self.left);
        self.left -= count;
        Ok(count)
    }
}

impl Read for Faltering {
    fn read(&mut self, buf: &mut [u8]) -> io::Result<usize> {
        self.step(buf.len())
    }
}

impl Write for Faltering {
    fn write(&mut self, buf: &[u8]) -> io::Result<usize> {
        self.step(buf.len().min(2))
    }

    fn flush(&mut self) -> io::Result<()> {
        Ok(())
    }
}

#[test]
fn a_reader_of_std_is_a_source(rt: HostRuntime) {
    let mut source = StdSource::new(b"abc".as_slice());
    let mut piece = [0; 2];
    for (answer, held) in [(Ok(2), b"ab"), (Ok(1), b"cb"), (Ok(0), b"cb")] {
        assert_eq!(rt; source.read(&mut piece), answer);
        assert_eq!(rt; piece, *held);
    }
    assert_eq!(rt; source.faults(), 0);
    let mut broken = StdSource::new(Faltering::new(3, 1));
    for (answer, faults) in [(Ok(2), 0), (Err(Failed), 1), (Ok(1), 1), (Ok(0), 1)] {
        assert_eq!(rt; broken.read(&mut piece), answer);
        assert_eq!(rt; broken.faults(), faults);
    }
}

#[test]
fn a_writer_of_std_is_a_sink(rt: HostRuntime) {
    let mut room = [0; 3];
    let mut sink = StdSink::new(&mut room[..]);
    for (answer, faults) in [(Ok(2), 0), (Ok(1), 0), (Err(Failed), 1)] {
        assert_eq!(rt; sink.write(b"ab"), answer);
        assert_eq!(rt; sink.faults(), faults);
    }
    assert_eq!(rt; room, *b"aba");
}

#[test]
fn a_reader_that_fails_in_mid_course_is_not_at_its_end(rt: HostRuntime) {
    // 4096 bytes, 904 bytes, and the end.
    for fails in 0..4 {
        let mut source = StdSource::new(Faltering::new(5000, fails));
        let taken = take_all(rt.alloc(), &mut source);
        if fails < 3 {
            assert_eq!(rt; taken.err(), Some(TakeFault::Failed));
            assert_eq!(rt; source.faults(), 1);
        } else {
            assert!(rt; taken.is_ok_and(|bytes| bytes.len() == 5000));
            assert_eq!(rt; source.faults(), 0);
        }
    }
}

#[test]
fn a_reader_is_read_up_to_the_longest_input(rt: HostRuntime) {
    let mut whole = StdSource::new(Faltering::new(1_048_576, 1_000));
    let taken = take_all(rt.alloc(), &mut whole);
    assert!(rt; taken.is_ok_and(|bytes| bytes.len() == 1_048_576));
    let mut long = StdSource::new(Faltering::new(1_048_580, 1_000));
    assert_eq!(rt;
        take_all(rt.alloc(), &mut long).err(),
        Some(TakeFault::Long)
    );
    assert_eq!(rt; long.faults(), 0);
    assert_eq!(rt; long.read(&mut [0; 9]), Ok(3));
}

#[test]
fn a_writer_that_fails_in_mid_course_has_not_taken_the_text(rt: HostRuntime) {
    // Two bytes a call.
    for fails in 0..4 {
        let mut sink = StdSink::new(Faltering::new(9, fails));
        let put = put_all(&mut sink, b"abcdef");
        if fails < 3 {
            assert_eq!(rt; put, Err(Failed));
            assert_eq!(rt; sink.faults(), 1);
        } else {
            assert_eq!(rt; put, Ok(()));
            assert_eq!(rt; sink.faults(), 0);
        }
    }
}
