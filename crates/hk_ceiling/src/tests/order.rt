//! Who gets each tick of a few jobs, one a task.
use crate::ceilings::TaskSection;
use crate::choice::best;
use hk_dispatch::Ready;
use std::alloc::{AllocError, Global};
use std::process::Abort;
use std::test::Fail;

/// A job: the tick at which it arrives, and how many ticks it takes.
#[derive(Clone, Copy)]
struct Job {
    arrival: u64,
    ticks: u64,
}

/// A section: its task and its resource, its first tick, and how many it has.
type Told = (u8, u8, u32, u32);

fn sections_of(alloc: Global, told: &[Told]) -> Result<Vec<TaskSection>, AllocError> {
    let mut sections = Vec::new(alloc);
    for (task, res, start, len) in told {
        sections.push(TaskSection {
            task: *task,
            res: *res,
            start: *start,
            len: *len,
        })?;
    }
    Ok(sections)
}

/// The rows of the jobs that are ready, where each has had so many ticks.
fn rows(alloc: Global, jobs: &[Job], had: &[u64], tick: u64) -> Result<Vec<Ready>, AllocError> {
    let mut rows = Vec::new(alloc);
    for (place, (job, done)) in jobs.iter().zip(had).enumerate() {
        if job.arrival <= tick && *done < job.ticks {
            rows.push(Ready {
                task: (place % 256) as u8,
                job: 0,
                arrival: job.arrival,
                deadline: 0,
                done: *done,
            })?;
        }
    }
    Ok(rows)
}

/// The task that gets a tick, None where no job is ready.
fn chosen(
    alloc: Global,
    sections: &[TaskSection],
    jobs: &[Job],
    had: &[u64],
    tick: u64,
) -> Result<Option<u8>, AllocError> {
    let ready = rows(alloc, jobs, had, tick)?;
    if ready.is_empty() {
        return Ok(None);
    }
    Ok(Some(ready[best(sections, &ready)].task))
}

/// Counts a tick of a task, and answers the task's letter, or a dot where there is none.
fn count(had: &mut [u64], task: Option<u8>) -> char {
    let Some(task) = task else {
        return '.';
    };
    if let Some(done) = had.get_mut(task as usize) {
        *done = done.saturating_add(1);
    }
    char::from(b'a' + task % 26)
}

/// A letter for each of the first ticks of three jobs: that of the job which gets it, or a dot.
fn order(
    alloc: Global,
    sections: &[TaskSection],
    jobs: &[Job],
    ticks: u64,
) -> Result<String, AllocError> {
    let mut text = String::new(alloc);
    let mut had = [0u64; 3];
    for tick in 0..ticks {
        let task = chosen(alloc, sections, jobs, &had, tick)?;
        text.push(count(&mut had, task))?;
    }
    Ok(text)
}

/// Compares who gets the first twelve ticks.
fn expect(
    rt: &impl Abort,
    alloc: Global,
    told: &[Told],
    jobs: &[Job],
    wanted: &str,
) -> Result<(), AllocError> {
    let sections = sections_of(alloc, told)?;
    let text = order(alloc, &sections, jobs, 12)?;
    assert_eq!(rt; text.as_str(), wanted);
    Ok(())
}

/// Three jobs: the last arrives first.
const JOBS: &[Job] = &[
    Job {
        arrival: 2,
        ticks: 2,
    },
    Job {
        arrival: 2,
        ticks: 2,
    },
    Job {
        arrival: 0,
        ticks: 6,
    },
];

/// Sections, and who gets the first twelve ticks.
struct Case {
    sections: &'static [Told],
    wanted: &'static str,
}

const CASES: &[Case] = &[
    // plain priorities
    Case {
        sections: &[],
        wanted: "ccaabbcccc..",
    },
    // the last job is inside its section as the others come, and of the same level as the first: it goes on
    Case {
        sections: &[(0, 0, 0, 2), (2, 0, 1, 4)],
        wanted: "cccccaabbc..",
    },
    // it gets the first tick of its section just before they come
    Case {
        sections: &[(0, 0, 0, 2), (2, 0, 0, 4)],
        wanted: "ccccaabbcc..",
    },
    // it would get it just as they come
    Case {
        sections: &[(0, 0, 0, 2), (2, 0, 2, 4)],
        wanted: "ccaabbcccc..",
    },
    // a section of one tick
    Case {
        sections: &[(0, 0, 0, 2), (2, 0, 1, 1)],
        wanted: "ccaabbcccc..",
    },
    // the resource is of the second task: the first job goes before
    Case {
        sections: &[(1, 0, 0, 2), (2, 0, 1, 4)],
        wanted: "ccaacccbbc..",
    },
    // another resource
    Case {
        sections: &[(0, 1, 0, 2), (2, 0, 1, 4)],
        wanted: "ccaabbcccc..",
    },
    // two sections that touch: between them the others go on
    Case {
        sections: &[(0, 0, 0, 2), (2, 0, 1, 2), (2, 0, 3, 3)],
        wanted: "cccaabbccc..",
    },
];

#[test]
fn orders(rt: HostRuntime) -> Result<(), Fail> {
    for case in CASES {
        expect(&rt, rt.alloc(), case.sections, JOBS, case.wanted)?;
    }
    Ok(())
}

/// Two jobs of one resource, where the ticks of an outer job lie between: the one that is inside keeps the resource.
#[test]
fn one_holder(rt: HostRuntime) -> Result<(), Fail> {
    const SECTIONS: &[Told] = &[(1, 0, 1, 3), (2, 0, 0, 5)];
    const THREE: &[Job] = &[
        Job {
            arrival: 2,
            ticks: 1,
        },
        Job {
            arrival: 1,
            ticks: 4,
        },
        Job {
            arrival: 0,
            ticks: 6,
        },
    ];
    expect(&rt, rt.alloc(), SECTIONS, THREE, "ccacccbbbbc.")?;
    Ok(())
}
