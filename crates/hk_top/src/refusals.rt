//! The lines for sheets that aren't admitted.
ghost use Rattle.std.specs.Prelude.{◌≡◌};
ghost use Rattle.hk_front.specs.Words.{Puts};
ghost use Rattle.hk_top.specs.Refusals.{need_word, need_line, have_line, refused_line};

use hk_admit::Refused;
use hk_front::{digits, put_line};
use hk_io::{Failed, Line, Sink};

/// Writes why a sheet isn't admitted.
pub fn put_refused<K: Sink>(sink: &mut K, refused: &Refused) -> Result<(), Failed>
    ensures { Puts (K.taken sink.old) (K.taken sink.new) (K.faults sink.old) (K.faults sink.new) (refused_line refused.now) result }
{
    match refused {
        Refused::Cost {
            task,
            need,
            declared,
        } => put_need(sink, b"cost", &task.items, *need, *declared),
        Refused::Words {
            task,
            need,
            declared,
        } => put_need(sink, b"words", &task.items, *need, *declared),
        Refused::Response(task) => put_line(sink, &[b"refused", b"response", &task.items]),
        Refused::Busy => put_line(sink, &[b"refused", b"busy"]),
        Refused::Rate { have, need } => put_have(sink, b"rate have", *have, *need),
        Refused::Reserve { have, need } => put_have(sink, b"reserve have", *have, *need),
        Refused::Memory => put_line(sink, &[b"refused"]),
    }
}

/// Writes that a task needs more than it declares.
fn put_need<K: Sink>(
    sink: &mut K,
    what: &[u8],
    task: &[u8],
    need: Option<u64>,
    declared: u64,
) -> Result<(), Failed>
    ensures { Puts (K.taken sink.old) (K.taken sink.new) (K.faults sink.old) (K.faults sink.new) (need_line what.now task.now need declared) result }
{
    let need = need_word(need);
    let declared = digits(declared);
    put_line(
        sink,
        &[
            b"refused",
            what,
            task,
            b"need",
            need.bytes(),
            b"declared",
            declared.bytes(),
        ],
    )
}

/// A number that may be too large to be told.
fn need_word(need: Option<u64>) -> Line
    ensures { result ≡ need_word need }
{
    match need {
        Some(need) => digits(need),
        None => {
            let mut line = Line::new();
            line.word(b"over");
            line
        }
    }
}

/// Writes that the heap has fewer of something than it needs.
fn put_have<K: Sink>(sink: &mut K, what: &[u8], have: u64, need: u64) -> Result<(), Failed>
    ensures { Puts (K.taken sink.old) (K.taken sink.new) (K.faults sink.old) (K.faults sink.new) (have_line what.now have need) result }
{
    let have = digits(have);
    let need = digits(need);
    put_line(
        sink,
        &[b"refused", what, have.bytes(), b"need", need.bytes()],
    )
}
