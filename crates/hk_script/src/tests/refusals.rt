//! Texts that are no scripts, by the usual limits.
use super::refused;
use crate::{ScriptError, parse};
use std::alloc::Global;
use std::process::Abort;
use std::test::Fail;

/// So many lines of a text, one after another.
fn repeated(alloc: Global, line: &str, count: usize, last: &str) -> Result<Vec<u8>, Fail> {
    let mut text = Vec::new(alloc);
    for _ in 0..count {
        text.extend_from_slice(line.as_bytes())?;
    }
    text.extend_from_slice(last.as_bytes())?;
    Ok(text)
}

#[test]
fn refuses_words(rt: HostRuntime) {
    for text in [
        "jump v0",
        "work",
        "work 1 2",
        "set v0",
        "copy v0",
        "add v0 v1 v2",
        "sub",
        "job",
        "out v0 v1",
        "get v0 r0",
        "put r0 0",
        "load r1 r0",
        "store r0 0",
        "move r1",
        "clear",
        "new r1 1",
        "if",
        "if v0 <",
        "if v0 > v1",
        "if same r0",
        "if null r0 r1",
        "if v0 < v1 v2",
        "else 1",
        "repeat",
        "end 1",
        "Work 1",
        "work\u{b}1",
        "work\u{0}1",
        "éwork 1",
    ] {
        refused(&rt, rt.alloc(), text, ScriptError::Word(1));
    }
}

#[test]
fn refuses_numbers(rt: HostRuntime) {
    for text in [
        "work 0",
        "work 65536",
        "work 1x",
        "work +1",
        "work -1",
        "work é",
        "set v0 18446744073709551616",
        "set v0 000000000000000000001",
        "set v0 99999999999999999999",
        "get v0 r0 62",
        "put r0 62 v0",
        "load r1 r0 62",
        "store r0 62 r1",
        "new r1 256 0",
        "new r1 0 256",
        "repeat 0",
        "repeat 65536",
        "put r0 62 v8",
        "store r0 62 r8",
        "new r1 256 256",
    ] {
        refused(&rt, rt.alloc(), text, ScriptError::Number(1));
    }
}

#[test]
fn refuses_registers_and_variables(rt: HostRuntime) {
    for text in [
        "get v0 r8 0",
        "put r8 0 v0",
        "load r0 r1 0",
        "load r1 r8 0",
        "store r8 0 r1",
        "store r0 0 r8",
        "move r0 r1",
        "move r1 r8",
        "clear r0",
        "clear r01",
        "new r0 1 1",
        "if null v0",
        "if same r0 r8",
        "put r8 62 v8",
        "new r0 256 0",
        "load r0 r8 62",
        "clear R1",
    ] {
        refused(&rt, rt.alloc(), text, ScriptError::Register(1));
    }
    for text in [
        "set v8 1",
        "copy v8 v0",
        "copy v0 r0",
        "add v0 v8",
        "sub v9 v0",
        "job v8",
        "out r0",
        "get r0 r0 0",
        "put r0 0 v8",
        "if v8 < v0",
        "if v0 < v8",
        "if v0 = 1",
        "if same < r1",
        "if null = r1",
        "out V0",
        "out v00",
        "get v8 r8 62",
        "set v8 x",
    ] {
        refused(&rt, rt.alloc(), text, ScriptError::Variable(1));
    }
}

#[test]
fn refuses_shapes_and_blocks(rt: HostRuntime) {
    for (text, want) in [
        ("new r1 0 0", ScriptError::Shape(1)),
        ("new r1 40 40", ScriptError::Shape(1)),
        ("work 1\nnew r1 62 1", ScriptError::Shape(2)),
        ("else", ScriptError::Block(1)),
        ("end", ScriptError::Block(1)),
        ("repeat 1\nelse\nend", ScriptError::Block(2)),
        ("if null r1\nelse\nelse\nend", ScriptError::Block(3)),
        ("if null r1\nend\nend", ScriptError::Block(3)),
        (
            "if null r1\nrepeat 1\nelse\nend\nend",
            ScriptError::Block(3),
        ),
        ("if null r1\nrepeat 2\nwork 1\n", ScriptError::Block(2)),
        ("work 1\n\nrepeat 2\n# more", ScriptError::Block(3)),
        ("repeat 1", ScriptError::Block(1)),
        ("jump\nset v8 1", ScriptError::Word(1)),
        ("work 1\nset v8 1\njump", ScriptError::Variable(2)),
        ("", ScriptError::Empty),
        ("\n\n", ScriptError::Empty),
        ("# a note", ScriptError::Empty),
        (" \t\r\n", ScriptError::Empty),
    ] {
        refused(&rt, rt.alloc(), text, want);
    }
}

/// A text of so many equal lines and a last one, and why it is refused.
#[derive(Clone, Copy)]
struct Lines {
    line: &'static str,
    count: usize,
    last: &'static str,
    want: ScriptError,
}

/// The lines are refused for this reason.
fn lines_refused(rt: &impl Abort, alloc: Global, lines: &Lines) -> Result<(), Fail> {
    let text = repeated(alloc, lines.line, lines.count, lines.last)?;
    match parse(alloc, text.as_slice()) {
        Ok(_script) => assert!(rt; false, "{} lines {:?} are parsed", lines.count, lines.line),
        Err(error) => {
            assert_eq!(rt;
                error,
                lines.want,
                "at {} lines {:?}",
                lines.count, lines.line
            )
        }
    }
    Ok(())
}

#[test]
fn refuses_long_and_deep_texts(rt: HostRuntime) -> Result<(), Fail> {
    for lines in [
        Lines {
            line: "repeat 1\n",
            count: 17,
            last: "",
            want: ScriptError::Deep(17),
        },
        Lines {
            line: "work 1\n",
            count: 1025,
            last: "",
            want: ScriptError::Long,
        },
        Lines {
            line: "work 1\n",
            count: 1024,
            last: "jump",
            want: ScriptError::Word(1025),
        },
        Lines {
            line: "work 1\n",
            count: 1024,
            last: "end",
            want: ScriptError::Block(1025),
        },
        Lines {
            line: "\nwork 1\n",
            count: 1024,
            last: "out v0",
            want: ScriptError::Long,
        },
    ] {
        lines_refused(&rt, rt.alloc(), &lines)?;
    }
    let deepest = repeated(
        rt.alloc(),
        "repeat 1\n",
        16,
        "end\nend\nend\nend\nend\nend\nend\nend\nend\nend\nend\nend\nend\nend\nend\nend",
    )?;
    assert!(rt; parse(rt.alloc(), deepest.as_slice()).is_ok());
    let longest = repeated(rt.alloc(), "work 1\n", 1024, "")?;
    assert!(rt; parse(rt.alloc(), longest.as_slice()).is_ok());
    Ok(())
}
