//! Made sheets. The drawn numbers were worked out by another program, and the numbers of the analysis from them by hand.
use super::*;
use hk_admit::{Admitted, admit};
use hk_script::print;
use hk_sheet::{Arrivals, High, Low, Name, Sheet, read, text};
use hk_words::Memory;
use std::alloc::{AllocError, Global};
use std::process::Abort;
use std::test::Fail;

/// Bytes as text: all are ASCII.
fn shown(alloc: Global, bytes: &[u8]) -> Result<String, AllocError> {
    let mut text = String::new(alloc);
    for byte in bytes {
        text.push(char::from(*byte))?;
    }
    Ok(text)
}

/// A name as text.
fn name_of(alloc: Global, name: &Name) -> Result<String, AllocError> {
    shown(alloc, &name.items)
}

/// When jobs arrive, as words.
fn arrivals(alloc: Global, arrivals: &Arrivals) -> Result<String, AllocError> {
    match arrivals {
        Arrivals::Every { first, step } => format!(in alloc; "first {first} every {step}"),
        Arrivals::List(_) => String::from_str(alloc, "list"),
    }
}

/// The numbers of a high task as a line.
fn high_line(alloc: Global, task: &High) -> Result<String, AllocError> {
    let name = name_of(alloc, &task.name)?;
    let arrivals = arrivals(alloc, &task.arrivals)?;
    let timing = task.timing;
    let (cost, period, deadline) = (timing.cost, timing.period, timing.deadline);
    let (words, jitter, lag) = (task.words, timing.jitter, task.lag);
    format!(in alloc;
        "{name} cost {cost} period {period} deadline {deadline} words {words} jitter {jitter} lag {lag} {arrivals}\n"
    )
}

/// The numbers of a low task as a line.
fn low_line(alloc: Global, task: &Low) -> Result<String, AllocError> {
    let name = name_of(alloc, &task.name)?;
    let arrivals = arrivals(alloc, &task.arrivals)?;
    format!(in alloc; "{name} {arrivals}\n")
}

/// The numbers of the tasks of a sheet, a line each.
fn lines(alloc: Global, sheet: &Sheet) -> Result<String, AllocError> {
    let mut text = String::new(alloc);
    for task in &sheet.high.items {
        text.push_str(high_line(alloc, task)?.as_str())?;
    }
    for task in &sheet.low.items {
        text.push_str(low_line(alloc, task)?.as_str())?;
    }
    Ok(text)
}

/// The scripts of the tasks of a sheet, each behind its task's name.
fn scripts(alloc: Global, sheet: &Sheet) -> Result<String, Memory> {
    let mut text = String::new(alloc);
    for task in &sheet.high.items {
        text.push_str(name_of(alloc, &task.name)?.as_str())?;
        text.push_str("\n")?;
        text.push_str(shown(alloc, &print(alloc, &task.script)?)?.as_str())?;
    }
    for task in &sheet.low.items {
        text.push_str(name_of(alloc, &task.name)?.as_str())?;
        text.push_str("\n")?;
        text.push_str(shown(alloc, &print(alloc, &task.script)?)?.as_str())?;
    }
    Ok(text)
}

/// The numbers of the analysis as a line.
fn numbers(alloc: Global, admitted: &Admitted) -> Result<String, AllocError> {
    let checked = &admitted.checked;
    let (work, attempt) = (checked.work, checked.attempt);
    let (busy, debt) = (checked.busy, checked.debt);
    let mut text = format!(in alloc;
        "work {work} attempt {attempt} busy {busy} debt {debt} responses"
    )?;
    for response in &admitted.responses.items {
        let word = format!(in alloc; " {response}")?;
        text.push_str(word.as_str())?;
    }
    Ok(text)
}

/// A number, the numbers of its tasks, and those of its analysis.
struct Case {
    number: u64,
    tasks: &'static str,
    analysis: &'static str,
}

const CASES: &[Case] = &[
    // what waits is 10 + 9 * 5 + 34 = 89, and each job brings 9 * 4 + 34 = 70 events. 89 + 128 + 137 + 125 = 479 is above
    // the first period, so one more job of it comes: 479 + 128. The debt is 79 + 70 * 4
    Case {
        number: 0,
        tasks: "h0 cost 58 period 424 deadline 424 words 4 jitter 0 lag 0 first 37 every 424\n\
            h1 cost 67 period 925 deadline 925 words 4 jitter 0 lag 0 first 91 every 925\n\
            h2 cost 55 period 1975 deadline 1975 words 4 jitter 0 lag 0 first 64 every 1975\n\
            l0 first 3 every 939\n\
            l1 first 82 every 1182\n",
        analysis: "work 16813 attempt 34 busy 607 debt 359 responses 58 125 180",
    },
    // 89 + 139 + 134 + 125 = 487, and 139 more
    Case {
        number: 7,
        tasks: "h0 cost 69 period 431 deadline 431 words 4 jitter 0 lag 0 first 53 every 431\n\
            h1 cost 64 period 945 deadline 945 words 4 jitter 0 lag 0 first 19 every 945\n\
            h2 cost 55 period 1764 deadline 1764 words 4 jitter 0 lag 0 first 39 every 1764\n\
            l0 first 95 every 1186\n\
            l1 first 32 every 975\n",
        analysis: "work 16813 attempt 34 busy 626 debt 359 responses 69 133 188",
    },
    // 89 + 121 + 125 + 129 = 464, which the first period holds: each comes once, and the debt is 79 + 70 * 3
    Case {
        number: 2,
        tasks: "h0 cost 51 period 482 deadline 482 words 4 jitter 0 lag 0 first 56 every 482\n\
            h1 cost 55 period 895 deadline 895 words 4 jitter 0 lag 0 first 99 every 895\n\
            h2 cost 59 period 1878 deadline 1878 words 4 jitter 0 lag 0 first 65 every 1878\n\
            l0 first 43 every 902\n\
            l1 first 74 every 1022\n",
        analysis: "work 16813 attempt 34 busy 464 debt 289 responses 51 106 165",
    },
    // 89 + 129 + 123 + 126 = 467, and 129 more
    Case {
        number: 18_446_744_073_709_551_615,
        tasks: "h0 cost 59 period 443 deadline 443 words 4 jitter 0 lag 0 first 77 every 443\n\
            h1 cost 53 period 864 deadline 864 words 4 jitter 0 lag 0 first 87 every 864\n\
            h2 cost 56 period 1847 deadline 1847 words 4 jitter 0 lag 0 first 40 every 1847\n\
            l0 first 83 every 932\n\
            l1 first 60 every 962\n",
        analysis: "work 16813 attempt 34 busy 596 debt 359 responses 59 112 168",
    },
];

/// The scripts of the sheet for 0.
const SCRIPTS: &str =
    "h0\njob v0\nnew r1 1 2\nput r1 0 v0\nload r2 r0 0\nif null r2\nelse\nstore r2 0 r3\nget v1 r2 0\nend\nstore r1 0 r2\nstore r0 0 r1\nadd v0 v1\nout v0\nclear r1\nclear r2\nwork 8\n\
    h1\njob v0\nnew r1 1 2\nput r1 0 v0\nload r2 r0 1\nif null r2\nelse\nstore r2 0 r3\nget v1 r2 0\nend\nstore r1 0 r2\nstore r0 1 r1\nadd v0 v1\nout v0\nclear r1\nclear r2\nwork 17\n\
    h2\njob v0\nnew r1 1 2\nput r1 0 v0\nload r2 r0 2\nif null r2\nelse\nstore r2 0 r3\nget v1 r2 0\nend\nstore r1 0 r2\nstore r0 2 r1\nadd v0 v1\nout v0\nclear r1\nclear r2\nwork 5\n\
    l0\njob v0\nnew r1 1 3\nput r1 0 v0\nload r2 r0 3\nif null r2\nelse\nstore r2 0 r3\nend\nstore r1 0 r2\nstore r0 3 r1\nclear r1\nclear r2\n\
    l1\njob v0\nnew r1 1 3\nput r1 0 v0\nload r2 r0 4\nif null r2\nelse\nstore r2 0 r3\nend\nstore r1 0 r2\nstore r0 4 r1\nclear r1\nclear r2\n";

/// The sheet of a number, printed and read, as it is admitted.
fn analysed(rt: &impl Abort, alloc: Global, number: u64) -> Result<Admitted, Fail> {
    let made = sheet(alloc, number)?;
    let again = read(alloc, &text(alloc, &made)?)?;
    assert_eq!(rt; again.ticks, made.ticks, "at {number}");
    assert_eq!(rt; again.heap, made.heap, "at {number}");
    assert_eq!(rt;
        lines(alloc, &again)?.as_str(),
        lines(alloc, &made)?.as_str(),
        "at {number}"
    );
    assert_eq!(rt;
        scripts(alloc, &again)?.as_str(),
        scripts(alloc, &made)?.as_str(),
        "at {number}"
    );
    Ok(admit(alloc, again)?)
}

#[test]
fn worked(rt: HostRuntime) -> Result<(), Fail> {
    for case in CASES {
        let number = case.number;
        let tasks = lines(rt.alloc(), &sheet(rt.alloc(), number)?)?;
        assert_eq!(rt; tasks.as_str(), case.tasks, "at {number}");
        let admitted = analysed(&rt, rt.alloc(), number)?;
        let analysis = numbers(rt.alloc(), &admitted)?;
        assert_eq!(rt; analysis.as_str(), case.analysis, "at {number}");
    }
    Ok(())
}

#[test]
fn whole(rt: HostRuntime) -> Result<(), Fail> {
    let made = sheet(rt.alloc(), 0)?;
    let heap = made.heap;
    assert_eq!(rt; made.ticks, 200_000);
    assert_eq!(rt; (heap.live, heap.alloc, heap.reserve), (256, 2_048, 64));
    assert_eq!(rt; (heap.rate, heap.refs, heap.nums), (9, 5, 1));
    assert_eq!(rt; (heap.registers, heap.fields), (8, 62));
    assert_eq!(rt; scripts(rt.alloc(), &made)?.as_str(), SCRIPTS);
    Ok(())
}

#[test]
fn a_hundred(rt: HostRuntime) -> Result<(), Fail> {
    for number in 0..100 {
        let admitted = analysed(&rt, rt.alloc(), number)?;
        let checked = &admitted.checked;
        assert_eq!(rt;
            (checked.work, checked.attempt),
            (16_813, 34),
            "at {number}"
        );
    }
    Ok(())
}
