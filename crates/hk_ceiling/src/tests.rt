//! Sheets with sections, and what they are answered; and the program. Each wanted line is worked out by hand from the formulas.
mod admission;
mod order;
mod runs;
mod streams;
mod words;

ghost use Rattle.std.specs.Prelude.{◌≤◌, IfOk, IfSome, length};

use crate::admission::admit_ceiling;
use crate::admitted::Held;
use crate::refused::CeilRefused;
use crate::told::Sections;
use crate::words::read_sections;
use hk_admit::Refused;
use hk_sheet::{Name, read};
use std::alloc::{AllocError, Global};
use std::process::Abort;

/// A high task, by its cost, period, deadline and jitter, and the ticks of its script `work`. A job comes at tick 0 and then every
/// period.
type Task = (u64, u64, u64, u64, u64);

/// A sheet, by its high tasks, which are called `a`, `b` and so on; the words of its sections; and what it is answered.
struct Case {
    high: &'static [Task],
    words: &'static [&'static str],
    wanted: &'static str,
}

/// The head of a sheet.
const HEAD: &str = "version = 1
ticks = 20
[heap]
live = 62
alloc = 512
reserve = 129
rate = 12
board = [2, 2]
";

/// The table of the high task at a place.
fn high_text(alloc: Global, place: usize, task: &Task) -> Result<String, AllocError> {
    let letter = char::from(b'a' + (place % 26) as u8);
    let (cost, period, deadline, jitter, work) = *task;
    format!(in alloc;
        "[[high]]\nname = '{letter}'\ncost = {cost}\nperiod = {period}\ndeadline = {deadline}\nwords = 0\njitter = {jitter}\nfirst = 0\nevery = {period}\nscript = 'work {work}'\n"
    )
}

/// The sheet of a case.
fn text(alloc: Global, case: &Case) -> Result<String, AllocError> {
    let mut text = String::from_str(alloc, HEAD)?;
    for (place, task) in case.high.iter().enumerate() {
        text.push_str(high_text(alloc, place, task)?.as_str())?;
    }
    Ok(text)
}

/// The words as they come from a command line.
fn words_of(alloc: Global, words: &[&str]) -> Result<Vec<String>, AllocError> {
    let mut all = Vec::new(alloc);
    for word in words {
        all.push(String::from_str(alloc, word)?)?;
    }
    Ok(all)
}

/// The sections that some words tell, None where they tell none.
fn sections_of(alloc: Global, words: &[&str]) -> Result<Option<Sections>, AllocError>
    ensures { IfOk result (λ found. IfSome found (λ sections. length sections ≤ 64)) }
{
    let words = words_of(alloc, words)?;
    read_sections(alloc, words.as_slice())
}

/// The bytes of a name behind a word.
fn about(alloc: Global, word: &str, task: &Name) -> Result<String, AllocError> {
    let mut text = String::from_str(alloc, word)?;
    for byte in &task.items {
        text.push(char::from(*byte))?;
    }
    Ok(text)
}

/// A refusal as a line.
fn refusal(alloc: Global, refused: &CeilRefused) -> Result<String, AllocError> {
    match refused {
        CeilRefused::Section(q) => format!(in alloc; "section {q}"),
        CeilRefused::Heap(Refused::Busy) => String::from_str(alloc, "busy"),
        CeilRefused::Heap(Refused::Cost { task, .. }) => about(alloc, "cost ", task),
        CeilRefused::Heap(_) => String::from_str(alloc, "heap"),
        CeilRefused::Jitter(task) => about(alloc, "jitter ", task),
        CeilRefused::Response(task) => about(alloc, "response ", task),
        CeilRefused::Memory => String::from_str(alloc, "memory"),
    }
}

/// What an admitted sheet is answered, as a line.
fn numbers(alloc: Global, held: &Held) -> Result<String, AllocError> {
    let checked = &held.checked;
    let (work, attempt) = (checked.work, checked.attempt);
    let (busy, debt) = (checked.busy, checked.debt);
    let mut text = format!(in alloc;
        "work {work} attempt {attempt} busy {busy} debt {debt} responses"
    )?;
    for response in &held.responses.items {
        let word = format!(in alloc; " {response}")?;
        text.push_str(word.as_str())?;
    }
    Ok(text)
}

/// What a sheet with sections is answered, as a line.
fn admitted(alloc: Global, text: &str, sections: &Sections) -> Result<String, AllocError>
    requires { length sections.now ≤ 64 }
{
    match read(alloc, text.as_bytes()) {
        Ok(sheet) => match admit_ceiling(alloc, sheet, &sections.items) {
            Ok(held) => numbers(alloc, &held),
            Err(refused) => refusal(alloc, &refused),
        },
        Err(_) => String::from_str(alloc, "no sheet"),
    }
}

/// What a case is answered, as a line.
fn answered(alloc: Global, case: &Case) -> Result<String, AllocError> {
    let text = text(alloc, case)?;
    match sections_of(alloc, case.words)? {
        Some(sections) => admitted(alloc, text.as_str(), &sections),
        None => String::from_str(alloc, "usage"),
    }
}

/// Admits the sheets of a table.
fn admit_all(rt: &impl Abort, alloc: Global, cases: &[Case]) -> Result<(), AllocError> {
    for case in cases {
        let line = answered(alloc, case)?;
        assert_eq!(rt; (case.words, line.as_str()), (case.words, case.wanted));
    }
    Ok(())
}
