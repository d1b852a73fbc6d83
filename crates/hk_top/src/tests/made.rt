//! Sheets that are made for numbers.
use super::{CHECK, Ended, expect_end, expect_status, run};
use hk_io::Status;
use hk_script::print;
use hk_sheet::{High, read};
use std::alloc::Global;
use std::process::Abort;

/// The report of the run of the sheet for 0, without outputs.
const OF_ZERO: &str = "heap work 16813 attempt 34 busy 607 debt 359
high h0 response 58 deadline 424
high h1 response 125 deadline 925
high h2 response 180 deadline 1975
low l0
low l1
done h0 jobs 472 latest 58
done h1 jobs 217 latest 125
done h2 jobs 102 latest 180
done l0 jobs 213 latest 396
done l1 jobs 169 latest 562
cycles 5 collector 45817 idle 89500
end 200000
";

/// What some words come to that read nothing: each call of the source would fail.
fn unread(rt: &impl Abort, alloc: Global, words: &[&str]) -> Ended {
    let ended = run(rt, alloc, words, "", (&[0, 1, 2, 3], &[]), 65536);
    assert!(rt; ended.source.calls() == 0);
    ended
}

/// At each run the same.
#[test]
fn simulates_a_made_sheet(rt: HostRuntime) {
    for _ in 0..2 {
        let ended = unread(&rt, rt.alloc(), &["sim", "0"]);
        expect_end(&rt, &ended, Status::Done, OF_ZERO);
    }
}

/// Compares the sheet that is made for a number.
fn expect_made(rt: &impl Abort, alloc: Global, number: &str, sheet: &[u8]) {
    let made = unread(rt, alloc, &["gen", number]);
    assert!(rt; made.sink.bytes() == sheet);
}

#[test]
fn writes_a_made_sheet(rt: HostRuntime) {
    let made = unread(&rt, rt.alloc(), &["gen", "7"]);
    expect_status(&rt, &made, Status::Done);
    expect_made(&rt, rt.alloc(), "007", made.sink.bytes());
}

/// What is written for a number, checked.
fn checked(rt: &impl Abort, alloc: Global, number: &str) -> Ended {
    let made = unread(rt, alloc, &["gen", number]);
    let text = str::from_utf8(made.sink.bytes()).expect(rt, "no text");
    run(rt, alloc, CHECK, text, (&[], &[]), 65536)
}

/// What is written for 0 is a sheet that is admitted, with the numbers of the report above.
#[test]
fn reads_a_made_sheet(rt: HostRuntime) {
    let ended = checked(&rt, rt.alloc(), "0");
    let analysis = ended.sink.bytes();
    expect_status(&rt, &ended, Status::Done);
    let first = b"heap work 16813 attempt 34 busy ";
    assert!(rt; OF_ZERO.as_bytes().starts_with(analysis) && analysis.starts_with(first));
}

/// Compares the cost of a task and the last line of its script.
fn expect_cost(rt: &impl Abort, alloc: Global, task: &High, cost: u64, line: &[u8]) {
    assert!(rt; task.timing.cost == cost);
    let script = print(alloc, &task.script).expect(rt, "no memory");
    assert!(rt; script.as_slice().ends_with(line));
}

/// The first draw below 20 for the number 0 is 7, so that the first task works for 8 ticks, of 58 in all.
#[test]
fn draws_the_first_task(rt: HostRuntime) {
    let alloc = rt.alloc();
    let made = unread(&rt, alloc, &["gen", "0"]);
    let sheet = read(alloc, made.sink.bytes()).expect(&rt, "no sheet");
    let task = sheet.high.items.first().expect(&rt, "no task");
    expect_cost(&rt, alloc, task, 58, b"\nwork 8\n");
}

#[test]
fn admits_made_sheets(rt: HostRuntime) {
    let alloc = rt.alloc();
    for number in 0..100_u64 {
        let word = format!(in alloc; "{number}").expect(&rt, "no memory");
        let ended = checked(&rt, alloc, word.as_str());
        expect_status(&rt, &ended, Status::Done);
    }
    let largest = checked(&rt, alloc, "18446744073709551615");
    expect_status(&rt, &largest, Status::Done);
}

/// Words that are no number below 2^64 in 1 to 20 digits.
const NO_NUMBERS: &[&str] = &[
    "",
    "+7",
    "-1",
    "7 ",
    "0x7",
    "18446744073709551616",
    "000000000000000000007",
];

/// Compares that a word behind a form's is refused, before anything is read.
fn expect_no_number(rt: &impl Abort, alloc: Global, form: &str, word: &str) {
    let ended = unread(rt, alloc, &[form, word]);
    expect_end(
        rt,
        &ended,
        Status::Usage,
        "usage: henri check, run [--trace], gen N, sim N\n",
    );
}

#[test]
fn takes_numbers_alone(rt: HostRuntime) {
    for word in NO_NUMBERS {
        expect_no_number(&rt, rt.alloc(), "gen", word);
        expect_no_number(&rt, rt.alloc(), "sim", word);
    }
}
