//! What happens where the input or the output fails.
use super::{SMALLEST, run};
use crate::charted::Charted;
use std::alloc::{AllocError, Global};
use std::process::Abort;
use std::test::Fail;

#[test]
fn tells_a_failed_read_from_the_end(rt: HostRuntime) -> Result<(), Fail> {
    // Two calls: all bytes, and the end.
    for (fails, charted) in [
        ([0], Charted::ReadFault),
        ([1], Charted::ReadFault),
        ([2], Charted::Done),
    ] {
        let ended = run(rt.alloc(), &[], SMALLEST, (&fails, &[]), 10_000)?;
        assert_eq!(rt;
            (ended.charted, ended.sink.bytes().is_empty()),
            (charted, charted == Charted::ReadFault)
        );
    }
    Ok(())
}

/// Compares that a first part of a picture is written into a sink of this room.
fn expect_room(
    rt: &impl Abort,
    alloc: Global,
    room: usize,
    picture: &[u8],
) -> Result<(), AllocError> {
    let ended = run(alloc, &[], SMALLEST, (&[], &[]), room)?;
    let part = ended.sink.bytes();
    assert_eq!(rt; (ended.charted, part.len()), (Charted::WriteFault, room));
    assert!(rt; picture.starts_with(part));
    Ok(())
}

#[test]
fn leaves_a_prefix_where_a_write_fails(rt: HostRuntime) -> Result<(), Fail> {
    let whole = run(rt.alloc(), &[], SMALLEST, (&[], &[]), 10_000)?;
    let text = whole.sink.bytes();
    assert!(rt; text.starts_with(b"<svg xmlns=\"http://www.w3.org/2000/svg\" "));
    assert!(rt; text.ends_with(b"</svg>\n"));
    for room in [0, 1, 400, 2_000] {
        expect_room(&rt, rt.alloc(), room, text)?;
    }
    Ok(())
}

#[test]
fn tells_a_failed_write(rt: HostRuntime) -> Result<(), Fail> {
    let refused = run(rt.alloc(), &[], "x\n", (&[], &[0]), 100)?.charted;
    let failed = run(rt.alloc(), &[], SMALLEST, (&[], &[0]), 10_000)?;
    assert_eq!(rt;
        (refused, failed.charted, failed.sink.bytes().is_empty()),
        (Charted::WriteFault, Charted::WriteFault, true)
    );
    Ok(())
}
