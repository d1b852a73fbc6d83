//! The source and the sink in memory, call by call.
use crate::{Failed, MemSink, MemSource, Sink, Source, Trial};
use std::test::Fail;

#[test]
fn a_source_in_memory_fails_at_its_calls(rt: HostRuntime) -> Result<(), Fail> {
    let bytes = b"abcde".to_vec(rt.alloc())?;
    let mut source = MemSource::new(bytes, [1, 3].to_vec(rt.alloc())?);
    let mut piece = [0; 2];
    let table = [
        (Ok(2), b"ab"),
        (Err(Failed), b"ab"),
        (Ok(2), b"cd"),
        (Err(Failed), b"cd"),
        (Ok(1), b"ed"),
        (Ok(0), b"ed"),
    ];
    for (answer, held) in table {
        assert_eq!(rt; source.read(&mut piece), answer);
        assert_eq!(rt; piece, *held);
    }
    assert_eq!(rt; source.calls(), 6);
    assert_eq!(rt; source.faults(), 2);
    Ok(())
}

#[test]
fn a_sink_in_memory_fails_at_its_calls_and_without_room(rt: HostRuntime) -> Result<(), Fail> {
    let mut sink = MemSink::new(rt.alloc(), 5, [1].to_vec(rt.alloc())?)?;
    for answer in [Ok(3), Err(Failed), Ok(2), Err(Failed)] {
        assert_eq!(rt; sink.write(b"abc"), answer);
    }
    assert_eq!(rt; sink.bytes(), b"abcab".as_slice());
    assert_eq!(rt; sink.calls(), 4);
    assert_eq!(rt; sink.faults(), 2);
    Ok(())
}

#[test]
fn a_trial_has_its_words_its_input_and_its_room(rt: HostRuntime) -> Result<(), Fail> {
    let mut trial = Trial::new(rt.alloc(), &["run", ""], b"abc", (&[1], &[0]), 2)?;
    assert_eq!(rt;
        (
            trial.words.len(),
            trial.words[0].as_str(),
            trial.words[1].as_str()
        ),
        (2, "run", "")
    );
    let mut piece = [0; 2];
    assert_eq!(rt; (trial.source.read(&mut piece), piece), (Ok(2), *b"ab"));
    assert_eq!(rt; trial.source.read(&mut piece), Err(Failed));
    assert_eq!(rt;
        (trial.sink.write(b"xyz"), trial.sink.write(b"xyz")),
        (Err(Failed), Ok(2))
    );
    assert_eq!(rt; trial.sink.bytes(), b"xy".as_slice());
    Ok(())
}
