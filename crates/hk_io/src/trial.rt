//! What a program is given in a trial.
ghost use Rattle.std.specs.Prelude.{◌≡◌, [], map, string_bytes, IfOk};
ghost use Rattle.hk_io.specs.Bytes.{texts};

use crate::{MemSink, MemSource};
use std::alloc::{AllocError, Global};

/// The words of a program, its input and where it writes, all in memory: a test runs the program on them, and looks at them
/// afterwards.
#[derive(Drop)]
pub struct Trial {
    pub words: Vec<String>,
    pub source: MemSource,
    pub sink: MemSink,
}

impl Trial {
    /// These words and this input, and a sink with so much room. Of the calls that read, those with the first numbers fail, and of
    /// those that write, those with the second.
    pub fn new(
        alloc: Global,
        words: &[&str],
        input: &[u8],
        fails: (&[u64], &[u64]),
        room: usize,
    ) -> Result<Trial, AllocError>
        ensures words { IfOk result (λ trial. map string_bytes trial.words.items ≡ texts words.now) }
        ensures input { IfOk result (λ trial. trial.source.left ≡ input.now) }
        ensures read_fails { IfOk result (λ trial. trial.source.fails ≡ fails.entry.0.now) }
        ensures read_calls { IfOk result (λ trial. (trial.source.calls ≡ 0) × (trial.source.faults ≡ 0)) }
        ensures room { IfOk result (λ trial. (trial.sink.room ≡ room) × (trial.sink.taken ≡ [])) }
        ensures write_fails { IfOk result (λ trial. trial.sink.fails ≡ fails.entry.1.now) }
        ensures write_calls { IfOk result (λ trial. (trial.sink.calls ≡ 0) × (trial.sink.faults ≡ 0)) }
    {
        let sink = MemSink::new(alloc, room, fails.1.to_vec(alloc)?)?;
        let source = MemSource::new(input.to_vec(alloc)?, fails.0.to_vec(alloc)?);
        let words = owned_words(alloc, words)?;
        Ok(Trial {
            words,
            source,
            sink,
        })
    }
}

/// Some words, each in memory of its own.
fn owned_words(alloc: Global, words: &[&str]) -> Result<Vec<String>, AllocError>
    ensures { IfOk result (λ all. map string_bytes all.items ≡ texts words.now) }
{
    let mut all = Vec::new(alloc);
    for word in words {
        all.push(String::from_str(alloc, word)?)?;
    }
    Ok(all)
}
