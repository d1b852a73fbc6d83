//! Walks of scripts, need by need.
ghost use Rattle.hk_script.specs.Walks.{Answers};

use crate::{Need, Script, Walk, parse};
use hk_words::{Call, Reply};
use std::alloc::Global;
use std::process::Abort;
use std::test::Fail;

/// What is put out, with the ticks up to it and the number of its statement.
#[derive(Clone, Copy, Debug, PartialEq, Eq)]
struct Output {
    at: u64,
    value: u64,
    statement: u32,
}

/// A job of a script, where each question is answered so, what it puts out, and what it takes.
#[derive(Clone, Copy)]
struct Job {
    text: &'static [u8],
    number: u64,
    answer: bool,
    outputs: &'static [Output],
    ticks: u64,
}

/// What a need takes, and a reply that fits it: a get reads 5, and each question is answered so.
fn reply_to(need: Need, answer: bool) -> (u64, Reply)
    ensures { Answers need result.1 }
{
    match need {
        Need::Work(n) => (u64::from(n), Reply::Unit),
        Need::Local | Need::Out(_) => (1, Reply::Unit),
        Need::Heap(Call::Get { reg: _, field: _ }) => (3, Reply::Num(5)),
        Need::Heap(_) => (7, Reply::Unit),
        Need::Ask(_) => (1, if answer { Reply::Yes } else { Reply::No }),
    }
}

/// Walks a job of the script, where a get reads 5 and each question is answered so: what is put out, and the ticks of all.
fn run(alloc: Global, script: &Script, job: u64, answer: bool) -> Result<(Vec<Output>, u64), Fail> {
    let _statements = script.statements();
    let mut walk = Walk::start(job);
    let mut ticks: u64 = 0;
    let mut outputs = Vec::new(alloc);
    for _ in 0..1000 {
        let Some(need) = walk.next(script) else {
            break;
        };
        let (taken, reply) = reply_to(need, answer);
        ticks = ticks.saturating_add(taken);
        if let Need::Out(value) = need {
            outputs.push(Output {
                at: ticks,
                value,
                statement: walk.statement(script),
            })?;
        }
        walk.done(script, reply);
    }
    Ok((outputs, ticks))
}

/// The job puts so much out and takes so much.
fn walked(rt: &impl Abort, alloc: Global, job: &Job) -> Result<(), Fail> {
    let script = parse(alloc, job.text)?;
    let (outputs, ticks) = run(alloc, &script, job.number, job.answer)?;
    assert_eq!(rt; outputs.as_slice(), job.outputs, "at {:?}", job.text);
    assert_eq!(rt; ticks, job.ticks, "at {:?}", job.text);
    Ok(())
}

#[test]
fn walks(rt: HostRuntime) -> Result<(), Fail> {
    for job in [
        Job {
            text: b"set v0 3\nrepeat 2\nadd v0 v0\nend\nout v0",
            number: 0,
            answer: true,
            outputs: &[Output {
                at: 7,
                value: 12,
                statement: 5,
            }],
            ticks: 7,
        },
        Job {
            text: b"job v1\nout v1\nsub v0 v1\nout v0",
            number: 3,
            answer: true,
            outputs: &[
                Output {
                    at: 2,
                    value: 3,
                    statement: 2,
                },
                Output {
                    at: 4,
                    value: 18_446_744_073_709_551_613,
                    statement: 4,
                },
            ],
            ticks: 4,
        },
        Job {
            text: b"set v0 18446744073709551615\nset v1 2\nadd v0 v1\nout v0",
            number: 0,
            answer: true,
            outputs: &[Output {
                at: 4,
                value: 1,
                statement: 4,
            }],
            ticks: 4,
        },
        Job {
            text: b"if null r1\nout v0\nelse\nset v0 9\nout v0\nend\nout v0",
            number: 0,
            answer: true,
            outputs: &[
                Output {
                    at: 2,
                    value: 0,
                    statement: 2,
                },
                Output {
                    at: 3,
                    value: 0,
                    statement: 7,
                },
            ],
            ticks: 3,
        },
        Job {
            text: b"if null r1\nout v0\nelse\nset v0 9\nout v0\nend\nout v0",
            number: 0,
            answer: false,
            outputs: &[
                Output {
                    at: 3,
                    value: 9,
                    statement: 5,
                },
                Output {
                    at: 4,
                    value: 9,
                    statement: 7,
                },
            ],
            ticks: 4,
        },
        Job {
            text: b"if same r0 r1\nelse\nend\nwork 4",
            number: 0,
            answer: false,
            outputs: &[],
            ticks: 5,
        },
        Job {
            text: b"set v1 1\nif v0 < v1\nif v1 = v0\nout v1\nelse\nout v0\nend\nend\nout v1",
            number: 0,
            answer: true,
            outputs: &[
                Output {
                    at: 4,
                    value: 0,
                    statement: 6,
                },
                Output {
                    at: 5,
                    value: 1,
                    statement: 9,
                },
            ],
            ticks: 5,
        },
        Job {
            text: b"repeat 2\nrepeat 3\nend\nout v0\nend",
            number: 0,
            answer: true,
            outputs: &[
                Output {
                    at: 6,
                    value: 0,
                    statement: 4,
                },
                Output {
                    at: 12,
                    value: 0,
                    statement: 4,
                },
            ],
            ticks: 13,
        },
        Job {
            text: b"repeat 3\nend",
            number: 0,
            answer: true,
            outputs: &[],
            ticks: 4,
        },
        Job {
            text: b"get v2 r0 0\ncopy v3 v2\nout v3\nput r0 1 v3\nout v2",
            number: 0,
            answer: true,
            outputs: &[
                Output {
                    at: 5,
                    value: 5,
                    statement: 3,
                },
                Output {
                    at: 13,
                    value: 5,
                    statement: 5,
                },
            ],
            ticks: 13,
        },
        Job {
            text: b"repeat 2\nif v0 < v1\nout v0\nelse\nrepeat 2\nadd v0 v2\nend\nset v1 1\nend\nend\nout v1",
            number: 0,
            answer: true,
            outputs: &[
                Output {
                    at: 11,
                    value: 0,
                    statement: 3,
                },
                Output {
                    at: 13,
                    value: 1,
                    statement: 11,
                },
            ],
            ticks: 13,
        },
    ] {
        walked(&rt, rt.alloc(), &job)?;
    }
    Ok(())
}
