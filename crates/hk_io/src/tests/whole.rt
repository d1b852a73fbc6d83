//! Whole texts and whole inputs.
ghost use Rattle.std.specs.Prelude.{◌-◌, ◌^◌, min, Some};

use crate::{Failed, MemSink, MemSource, Sink, Source, TakeFault, put_all, take_all};
use std::test::Fail;

/// A sink that takes one byte a call.
#[derive(Drop)]
struct Slow {
    sink: MemSink,
}

impl Sink for Slow {
    ghost taken = { λ slow. Some slow.sink.taken };

    ghost faults = { λ slow. min slow.sink.faults (2 ^ 64 - 1) };

    ghost use Rattle.std.proofs.Math.Nat.{min-le_right};

    ghost faults_fit = { λ slow. min-le_right slow.sink.faults (2 ^ 64 - 1) };

    fn write(&mut self, piece: &[u8]) -> Result<usize, Failed> {
        self.sink.write(&piece[..1])
    }
}

/// A text of six bytes, put into a sink of this room that fails at the call with this number.
struct Put {
    room: usize,
    fails: u64,
    answer: Result<(), Failed>,
    taken: &'static [u8],
    calls: u64,
}

const PUTS: &[Put] = &[
    Put {
        room: 6,
        fails: 9,
        answer: Ok(()),
        taken: b"abcdef",
        calls: 6,
    },
    Put {
        room: 4,
        fails: 9,
        answer: Err(Failed),
        taken: b"abcd",
        calls: 5,
    },
    Put {
        room: 6,
        fails: 0,
        answer: Err(Failed),
        taken: b"",
        calls: 1,
    },
    Put {
        room: 6,
        fails: 3,
        answer: Err(Failed),
        taken: b"abc",
        calls: 4,
    },
];

#[test]
fn a_text_is_put_whole_or_a_prefix_of_it(rt: HostRuntime) -> Result<(), Fail> {
    for case in PUTS {
        let sink = MemSink::new(rt.alloc(), case.room, [case.fails].to_vec(rt.alloc())?)?;
        let mut slow = Slow { sink };
        assert_eq!(rt; put_all(&mut slow, b"abcdef"), case.answer);
        assert_eq!(rt; slow.sink.bytes(), case.taken);
        assert_eq!(rt; slow.sink.calls(), case.calls);
    }
    Ok(())
}

#[test]
fn an_input_is_taken_to_its_end(rt: HostRuntime) -> Result<(), Fail> {
    for size in [0, 1, 4096, 1_048_576] {
        let bytes = vec![in rt.alloc(); b'x'; size]?;
        let mut source = MemSource::new(bytes, vec![in rt.alloc()]?);
        let taken = take_all(rt.alloc(), &mut source);
        let wanted = vec![in rt.alloc(); b'x'; size]?;
        assert!(rt; taken.is_ok_and(|bytes| bytes.as_slice() == wanted.as_slice()));
    }
    Ok(())
}

#[test]
fn an_input_of_one_byte_more_is_too_long(rt: HostRuntime) -> Result<(), Fail> {
    for (size, rest) in [(1_048_577, 0), (1_048_580, 3)] {
        let bytes = vec![in rt.alloc(); b'x'; size]?;
        let mut source = MemSource::new(bytes, vec![in rt.alloc()]?);
        assert_eq!(rt;
            take_all(rt.alloc(), &mut source).err(),
            Some(TakeFault::Long)
        );
        assert_eq!(rt; source.read(&mut [0; 9]), Ok(rest));
    }
    Ok(())
}

#[test]
fn a_failed_read_is_no_end(rt: HostRuntime) -> Result<(), Fail> {
    // 4096 bytes, 904 bytes, and the end.
    for call in 0..4 {
        let bytes = vec![in rt.alloc(); b'x'; 5000]?;
        let mut source = MemSource::new(bytes, [call].to_vec(rt.alloc())?);
        let taken = take_all(rt.alloc(), &mut source);
        if call < 3 {
            assert_eq!(rt; taken.err(), Some(TakeFault::Failed));
            assert_eq!(rt; source.calls(), call + 1);
            assert_eq!(rt; source.faults(), 1);
        } else {
            assert!(rt; taken.is_ok_and(|bytes| bytes.len() == 5000));
            assert_eq!(rt; source.calls(), 3);
            assert_eq!(rt; source.faults(), 0);
        }
    }
    Ok(())
}
