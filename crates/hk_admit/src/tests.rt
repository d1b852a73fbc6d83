//! Sheets, and what they are answered. Each wanted line is worked out by hand from the formulas of the analysis.
mod busy;
mod declared;
mod heaps;
mod jitter;
mod order;
mod responses;
mod room;
mod sizing;
mod versions;
mod worked;

use super::*;
use hk_sheet::{Name, Sheet, read};
use std::alloc::{AllocError, Global};
use std::process::Abort;
use std::test::Fail;

/// The heap of a sheet: its sizes in words, the events of a word, and the fields of the board of each kind. It names the
/// registers of a task in a sheet of version 2.
#[derive(Clone, Copy)]
struct Heap {
    live: u32,
    alloc: u32,
    reserve: u32,
    rate: u64,
    board: (u8, u8),
    registers: Option<u8>,
}

/// A high task, of which a job comes at tick 0 and then every period. Its script has `;` for a new line.
#[derive(Clone, Copy)]
struct Task {
    cost: u64,
    period: u64,
    deadline: u64,
    words: u64,
    jitter: u64,
    script: &'static str,
}

/// A sheet, by its heap, its high tasks and its low tasks' scripts, and what it is answered. The tasks are called `a`, `b`
/// and so on, the high ones first.
struct Case {
    heap: Heap,
    high: &'static [Task],
    low: &'static [&'static str],
    wanted: &'static str,
}

/// A heap with 62 words for live objects and 512 for new ones with 129 in reserve, a rate of 11, and a board of 2 and 2
/// fields.
const H: Heap = Heap {
    live: 62,
    alloc: 512,
    reserve: 129,
    rate: 11,
    board: (2, 2),
    registers: None,
};

/// A task that allocates nothing, and whose jobs are ready as they arrive.
const TASK: Task = Task {
    cost: 1,
    period: 1000,
    deadline: 1000,
    words: 0,
    jitter: 0,
    script: "work 1",
};

/// The head of a sheet, and the table of its heap.
fn heap_text(alloc: Global, heap: &Heap) -> Result<String, AllocError> {
    let (live, words, reserve, rate) = (heap.live, heap.alloc, heap.reserve, heap.rate);
    let (refs, nums) = heap.board;
    let keys = format!(in alloc;
        "ticks = 1\n[heap]\nlive = {live}\nalloc = {words}\nreserve = {reserve}\nrate = {rate}\nboard = [{refs}, {nums}]\n"
    )?;
    match heap.registers {
        Some(registers) => format!(in alloc; "version = 2\n{keys}registers = {registers}\n"),
        None => format!(in alloc; "version = 1\n{keys}"),
    }
}

/// The name of the task at a place, and its script.
fn common_text(alloc: Global, place: usize, script: &str) -> Result<String, AllocError> {
    let letter = char::from(b'a' + (place % 26) as u8);
    let mut text = format!(in alloc; "name = '{letter}'\nscript = \"")?;
    for byte in script.as_bytes() {
        if *byte == b';' {
            text.push_str("\\n")?;
        } else {
            text.push(char::from(*byte))?;
        }
    }
    text.push_str("\"\n")?;
    Ok(text)
}

/// The table of the high task at a place.
fn high_text(alloc: Global, place: usize, task: &Task) -> Result<String, AllocError> {
    let common = common_text(alloc, place, task.script)?;
    let (cost, period, deadline) = (task.cost, task.period, task.deadline);
    let (words, jitter) = (task.words, task.jitter);
    format!(in alloc;
        "[[high]]\n{common}cost = {cost}\nperiod = {period}\ndeadline = {deadline}\nwords = {words}\njitter = {jitter}\nfirst = 0\nevery = {period}\n"
    )
}

/// The sheet of a case.
fn text(alloc: Global, case: &Case) -> Result<String, AllocError> {
    let mut text = heap_text(alloc, &case.heap)?;
    for (place, task) in case.high.iter().enumerate() {
        text.push_str(high_text(alloc, place, task)?.as_str())?;
    }
    for (place, script) in case.low.iter().enumerate() {
        let common = common_text(alloc, case.high.len() + place, script)?;
        let table = format!(in alloc; "[[low]]\n{common}first = 0\nevery = 1\n")?;
        text.push_str(table.as_str())?;
    }
    Ok(text)
}

/// The bytes of a name behind a word.
fn about(alloc: Global, word: &str, task: &Name) -> Result<String, AllocError> {
    let mut text = String::from_str(alloc, word)?;
    for byte in &task.items {
        text.push(char::from(*byte))?;
    }
    Ok(text)
}

/// What a task needs and what it declares, behind its name.
fn excess(
    alloc: Global,
    name: &str,
    need: Option<u64>,
    declared: u64,
) -> Result<String, AllocError> {
    match need {
        Some(need) => format!(in alloc; "{name} need {need} declared {declared}"),
        None => format!(in alloc; "{name} need none declared {declared}"),
    }
}

/// A refusal as a line.
fn refusal(alloc: Global, refused: &Refused) -> Result<String, AllocError> {
    match refused {
        Refused::Cost {
            task,
            need,
            declared,
        } => excess(
            alloc,
            about(alloc, "cost ", task)?.as_str(),
            *need,
            *declared,
        ),
        Refused::Words {
            task,
            need,
            declared,
        } => excess(
            alloc,
            about(alloc, "words ", task)?.as_str(),
            *need,
            *declared,
        ),
        Refused::Response(task) => about(alloc, "response ", task),
        Refused::Busy => String::from_str(alloc, "busy"),
        Refused::Rate { have, need } => format!(in alloc; "rate have {have} need {need}"),
        Refused::Reserve { have, need } => format!(in alloc; "reserve have {have} need {need}"),
        Refused::Memory => String::from_str(alloc, "memory"),
    }
}

/// The numbers of a sheet as a line.
fn numbers(alloc: Global, checked: &Checked) -> Result<String, AllocError> {
    let (work, attempt) = (checked.work, checked.attempt);
    let (busy, debt) = (checked.busy, checked.debt);
    format!(in alloc; "work {work} attempt {attempt} busy {busy} debt {debt}")
}

/// What `admit` answers, as a line.
fn whole(alloc: Global, answer: &Result<Admitted, Refused>) -> Result<String, AllocError> {
    match answer {
        Ok(admitted) => {
            let mut text = numbers(alloc, &admitted.checked)?;
            text.push_str(" responses")?;
            for response in &admitted.responses.items {
                let word = format!(in alloc; " {response}")?;
                text.push_str(word.as_str())?;
            }
            Ok(text)
        }
        Err(refused) => refusal(alloc, refused),
    }
}

/// What `check_heap` answers, as a line.
fn part(alloc: Global, answer: &Result<Checked, Refused>) -> Result<String, AllocError> {
    match answer {
        Ok(checked) => numbers(alloc, checked),
        Err(refused) => refusal(alloc, refused),
    }
}

/// Admits a sheet.
fn admitted(alloc: Global, text: &str) -> Result<String, AllocError> {
    match read(alloc, text.as_bytes()) {
        Ok(sheet) => whole(alloc, &admit(alloc, sheet)),
        Err(_) => String::from_str(alloc, "no sheet"),
    }
}

/// Checks the heap of a sheet.
fn checked(alloc: Global, text: &str) -> Result<String, AllocError> {
    match read(alloc, text.as_bytes()) {
        Ok(sheet) => part(alloc, &check_heap(alloc, sheet)),
        Err(_) => String::from_str(alloc, "no sheet"),
    }
}

/// Admits the sheets of a table.
fn admit_all(rt: &impl Abort, alloc: Global, cases: &[Case]) -> Result<(), Fail> {
    for case in cases {
        let text = text(alloc, case)?;
        let line = admitted(alloc, text.as_str())?;
        assert_eq!(rt; line.as_str(), case.wanted, "{text}");
    }
    Ok(())
}

/// Checks the heaps of the sheets of a table.
fn check_all(rt: &impl Abort, alloc: Global, cases: &[Case]) -> Result<(), Fail> {
    for case in cases {
        let text = text(alloc, case)?;
        let line = checked(alloc, text.as_str())?;
        assert_eq!(rt; line.as_str(), case.wanted, "{text}");
    }
    Ok(())
}
