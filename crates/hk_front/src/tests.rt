//! The lines of refusals as they are printed, and how a program ends by them.
use crate::{digits, ended, put_line, put_sheet_error, refuse_sheet};
use hk_io::{Failed, MemSink, Status};
use hk_script::ScriptError;
use hk_sheet::{Key, Name, SheetError};
use hk_words::GeoError;
use std::alloc::{AllocError, Global};
use std::process::Abort;
use std::test::Fail;

/// A sink of which the calls with these numbers fail.
fn sink(alloc: Global, fails: &[u64]) -> Result<MemSink, AllocError> {
    let Ok(sink) = MemSink::new(alloc, 200, fails.to_vec(alloc)?) else {
        return Err(AllocError);
    };
    Ok(sink)
}

/// A key of these bytes.
fn key(alloc: Global, text: &str) -> Result<Key, AllocError> {
    Ok(Key {
        items: text.as_bytes().to_vec(alloc)?,
    })
}

/// A name of these bytes.
fn name(alloc: Global, text: &str) -> Result<Name, AllocError> {
    Ok(Name {
        items: text.as_bytes().to_vec(alloc)?,
    })
}

/// Compares what is written of an error, and that it ends a program by `Sheet`.
fn expect_refusal(
    rt: &impl Abort,
    alloc: Global,
    error: SheetError,
    text: &str,
) -> Result<(), AllocError> {
    let mut sink = sink(alloc, &[])?;
    let status = refuse_sheet(&error, &mut sink);
    assert_eq!(rt; (status, sink.bytes()), (Status::Sheet, text.as_bytes()));
    Ok(())
}

#[test]
fn tells_keys(rt: HostRuntime) -> Result<(), Fail> {
    let alloc = rt.alloc();
    let missing = SheetError::Missing(key(alloc, "heap.live")?);
    expect_refusal(&rt, alloc, missing, "sheet missing heap.live\n")?;
    let unknown = SheetError::Unknown(key(alloc, "a?b")?);
    expect_refusal(&rt, alloc, unknown, "sheet unknown a?b\n")?;
    let kind = SheetError::Kind(key(alloc, "high[0].cost")?);
    expect_refusal(&rt, alloc, kind, "sheet kind high[0].cost\n")?;
    let range = SheetError::Range(key(alloc, "ticks")?);
    expect_refusal(&rt, alloc, range, "sheet range ticks\n")?;
    Ok(())
}

#[test]
fn tells_what_has_no_key(rt: HostRuntime) -> Result<(), Fail> {
    let alloc = rt.alloc();
    expect_refusal(&rt, alloc, SheetError::Text, "sheet text\n")?;
    expect_refusal(&rt, alloc, SheetError::Name(31), "sheet name 31\n")?;
    let arrivals = SheetError::Arrivals {
        task: name(alloc, "b")?,
        place: 2,
        earlier: 1000,
        later: 1009,
    };
    expect_refusal(&rt, alloc, arrivals, "sheet arrivals b 2 1000 1009\n")?;
    let geometry = SheetError::Geometry(GeoError::Reserve);
    expect_refusal(&rt, alloc, geometry, "sheet geometry reserve\n")?;
    Ok(())
}

/// The faults of a script that have a line, and those that have none.
const FAULTS: &[(ScriptError, &str)] = &[
    (ScriptError::Word(1), "sheet script a word 1\n"),
    (ScriptError::Number(2), "sheet script a number 2\n"),
    (ScriptError::Register(3), "sheet script a register 3\n"),
    (ScriptError::Variable(4), "sheet script a variable 4\n"),
    (ScriptError::Shape(5), "sheet script a shape 5\n"),
    (ScriptError::Block(6), "sheet script a block 6\n"),
    (
        ScriptError::Deep(4294967295),
        "sheet script a deep 4294967295\n",
    ),
    (ScriptError::Long, "sheet script a long\n"),
    (ScriptError::Empty, "sheet script a empty\n"),
];

#[test]
fn tells_faults_of_scripts(rt: HostRuntime) -> Result<(), Fail> {
    let alloc = rt.alloc();
    for (fault, text) in FAULTS {
        let error = SheetError::Script(name(alloc, "a")?, *fault);
        expect_refusal(&rt, alloc, error, text)?;
    }
    Ok(())
}

#[test]
fn tells_no_want_of_memory(rt: HostRuntime) -> Result<(), Fail> {
    let mut sink = sink(rt.alloc(), &[0])?;
    let status = refuse_sheet(&SheetError::Memory, &mut sink);
    assert_eq!(rt; (status, sink.calls()), (Status::Memory, 0));
    Ok(())
}

/// A line of three words takes six calls of the sink: one for each word, for the space before the second and the third, and for
/// the newline. Here each fails in turn.
#[test]
fn stops_at_the_first_fault(rt: HostRuntime) -> Result<(), Fail> {
    let texts: [(u64, &str); 6] = [
        (0, ""),
        (1, "sheet"),
        (2, "sheet "),
        (3, "sheet range"),
        (4, "sheet range "),
        (5, "sheet range k"),
    ];
    let error = SheetError::Range(key(rt.alloc(), "k")?);
    for (call, text) in texts {
        let mut sink = sink(rt.alloc(), &[call])?;
        let status = refuse_sheet(&error, &mut sink);
        assert_eq!(rt;
            (status, sink.bytes(), sink.calls()),
            (Status::WriteFault, text.as_bytes(), call.wrapping_add(1))
        );
    }
    Ok(())
}

/// A line begins with its first word that isn't empty; behind that an empty word has its space too.
#[test]
fn parts_words_by_spaces(rt: HostRuntime) -> Result<(), Fail> {
    let mut sink = sink(rt.alloc(), &[])?;
    let number = digits(18446744073709551615);
    let written = put_line(&mut sink, &[b"", b"most", b"", number.bytes()]);
    assert_eq!(rt; ended(Status::Usage, written), Status::Usage);
    assert_eq!(rt; sink.bytes(), "most  18446744073709551615\n".as_bytes());
    assert_eq!(rt; put_sheet_error(&mut sink, &SheetError::Text), Ok(()));
    assert_eq!(rt;
        sink.bytes(),
        "most  18446744073709551615\nsheet text\n".as_bytes()
    );
    assert_eq!(rt; ended(Status::Done, Err(Failed)), Status::WriteFault);
    Ok(())
}
