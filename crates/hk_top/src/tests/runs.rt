//! Runs of one task.
use super::expect_run;
use hk_io::Status;
use std::alloc::Global;
use std::process::Abort;

/// A sheet of one task, and its report behind the line on the heap's work. Times are in ticks.
#[derive(Clone, Copy)]
struct Case {
    ticks: u64,
    period: u64,
    deadline: u64,
    cost: u64,
    first: u64,
    every: u64,
    script: &'static str,
    report: &'static str,
}

/// What the cases have in common, where they don't say otherwise.
const CASE: Case = Case {
    ticks: 10,
    period: 10,
    deadline: 10,
    cost: 2,
    first: 0,
    every: 10,
    script: "work 1\\nout v0",
    report: "",
};

/// The sheet of a case.
fn sheet(rt: &impl Abort, alloc: Global, case: &Case) -> String {
    let Case {
        ticks,
        period,
        deadline,
        cost,
        first,
        every,
        script,
        ..
    } = *case;
    format!(in alloc;
        "version = 1\nticks = {ticks}\n[heap]\nlive = 62\nalloc = 512\nreserve = 129\nrate = 11\nboard = [2, 2]\n[[high]]\nname = \"a\"\nperiod = {period}\ndeadline = {deadline}\ncost = {cost}\nwords = 0\nfirst = {first}\nevery = {every}\nscript = \"{script}\"\n"
    ).expect(rt, "no memory")
}

/// Runs sheets of one task, and compares their reports with the wanted ones.
fn expect_runs(rt: &impl Abort, alloc: Global, cases: &[Case]) {
    for case in cases {
        let input = sheet(rt, alloc, case);
        let report = case.report;
        let text = format!(in alloc; "heap work 4179 attempt 0 {report}").expect(rt, "no memory");
        expect_run(rt, alloc, input.as_str(), Status::Done, text.as_str());
    }
}

/// Runs of one script, up to several horizons.
const HORIZONS: &[Case] = &[
    Case {
        script: "work 1\\nout v0\\n",
        report: "busy 2 debt 0\nhigh a response 2 deadline 10\nout 1 a 0\ndone a jobs 1 latest 2\ncycles 0 collector 0 idle 8\nend 10\n",
        ..CASE
    },
    // Without the last newline.
    Case {
        report: "busy 2 debt 0\nhigh a response 2 deadline 10\nout 1 a 0\ndone a jobs 1 latest 2\ncycles 0 collector 0 idle 8\nend 10\n",
        ..CASE
    },
    // The horizon cuts the job, ends with it, and comes later.
    Case {
        ticks: 1,
        report: "busy 2 debt 0\nhigh a response 2 deadline 10\ndone a jobs 0 latest 0\ncycles 0 collector 0 idle 0\nend 1\n",
        ..CASE
    },
    Case {
        ticks: 2,
        report: "busy 2 debt 0\nhigh a response 2 deadline 10\nout 1 a 0\ndone a jobs 1 latest 2\ncycles 0 collector 0 idle 0\nend 2\n",
        ..CASE
    },
    Case {
        ticks: 3,
        report: "busy 2 debt 0\nhigh a response 2 deadline 10\nout 1 a 0\ndone a jobs 1 latest 2\ncycles 0 collector 0 idle 1\nend 3\n",
        ..CASE
    },
    Case {
        ticks: 11,
        report: "busy 2 debt 0\nhigh a response 2 deadline 10\nout 1 a 0\ndone a jobs 1 latest 2\ncycles 0 collector 0 idle 8\nend 11\n",
        ..CASE
    },
    Case {
        ticks: 12,
        report: "busy 2 debt 0\nhigh a response 2 deadline 10\nout 1 a 0\nout 11 a 0\ndone a jobs 2 latest 2\ncycles 0 collector 0 idle 8\nend 12\n",
        ..CASE
    },
    Case {
        ticks: 25,
        report: "busy 2 debt 0\nhigh a response 2 deadline 10\nout 1 a 0\nout 11 a 0\nout 21 a 0\ndone a jobs 3 latest 2\ncycles 0 collector 0 idle 19\nend 25\n",
        ..CASE
    },
];

#[test]
fn runs_up_to_the_horizon(rt: HostRuntime) {
    expect_runs(&rt, rt.alloc(), HORIZONS);
}

/// Runs of one script, by other arrivals, costs and deadlines.
const TIMES: &[Case] = &[
    // The first job comes later, at the last tick, at the horizon, and far beyond it.
    Case {
        first: 3,
        report: "busy 2 debt 0\nhigh a response 2 deadline 10\nout 4 a 0\ndone a jobs 1 latest 2\ncycles 0 collector 0 idle 8\nend 10\n",
        ..CASE
    },
    Case {
        first: 9,
        report: "busy 2 debt 0\nhigh a response 2 deadline 10\ndone a jobs 0 latest 0\ncycles 0 collector 0 idle 9\nend 10\n",
        ..CASE
    },
    Case {
        first: 10,
        report: "busy 2 debt 0\nhigh a response 2 deadline 10\ndone a jobs 0 latest 0\ncycles 0 collector 0 idle 10\nend 10\n",
        ..CASE
    },
    Case {
        first: 16777216,
        report: "busy 2 debt 0\nhigh a response 2 deadline 10\ndone a jobs 0 latest 0\ncycles 0 collector 0 idle 10\nend 10\n",
        ..CASE
    },
    // Jobs come further apart than the period.
    Case {
        ticks: 20,
        every: 15,
        report: "busy 2 debt 0\nhigh a response 2 deadline 10\nout 1 a 0\nout 16 a 0\ndone a jobs 2 latest 2\ncycles 0 collector 0 idle 16\nend 20\n",
        ..CASE
    },
    Case {
        ticks: 20,
        every: 16777216,
        report: "busy 2 debt 0\nhigh a response 2 deadline 10\nout 1 a 0\ndone a jobs 1 latest 2\ncycles 0 collector 0 idle 18\nend 20\n",
        ..CASE
    },
    // A cost above what the script takes, up to the deadline, and a deadline below the period.
    Case {
        cost: 3,
        report: "busy 3 debt 0\nhigh a response 3 deadline 10\nout 1 a 0\ndone a jobs 1 latest 2\ncycles 0 collector 0 idle 8\nend 10\n",
        ..CASE
    },
    Case {
        cost: 10,
        report: "busy 10 debt 0\nhigh a response 10 deadline 10\nout 1 a 0\ndone a jobs 1 latest 2\ncycles 0 collector 0 idle 8\nend 10\n",
        ..CASE
    },
    Case {
        deadline: 2,
        report: "busy 2 debt 0\nhigh a response 2 deadline 2\nout 1 a 0\ndone a jobs 1 latest 2\ncycles 0 collector 0 idle 8\nend 10\n",
        ..CASE
    },
];

#[test]
fn runs_jobs_as_they_arrive(rt: HostRuntime) {
    expect_runs(&rt, rt.alloc(), TIMES);
}

/// Runs of jobs that leave few ticks to nobody.
const JOBS: &[Case] = &[
    // Each tick is a job; jobs one behind the other; a job cut behind two that ended.
    Case {
        ticks: 4,
        period: 1,
        deadline: 1,
        cost: 1,
        every: 1,
        script: "out v0",
        report: "busy 1 debt 0\nhigh a response 1 deadline 1\nout 0 a 0\nout 1 a 0\nout 2 a 0\nout 3 a 0\ndone a jobs 4 latest 1\ncycles 0 collector 0 idle 0\nend 4\n",
        ..CASE
    },
    Case {
        ticks: 4,
        period: 1,
        deadline: 1,
        cost: 1,
        every: 1,
        script: "work 1",
        report: "busy 1 debt 0\nhigh a response 1 deadline 1\ndone a jobs 4 latest 1\ncycles 0 collector 0 idle 0\nend 4\n",
        ..CASE
    },
    Case {
        ticks: 7,
        period: 2,
        deadline: 2,
        every: 2,
        report: "busy 2 debt 0\nhigh a response 2 deadline 2\nout 1 a 0\nout 3 a 0\nout 5 a 0\ndone a jobs 3 latest 2\ncycles 0 collector 0 idle 0\nend 7\n",
        ..CASE
    },
    Case {
        period: 4,
        deadline: 4,
        first: 1,
        every: 4,
        report: "busy 2 debt 0\nhigh a response 2 deadline 4\nout 2 a 0\nout 6 a 0\ndone a jobs 2 latest 2\ncycles 0 collector 0 idle 5\nend 10\n",
        ..CASE
    },
];

#[test]
fn runs_jobs_one_behind_the_other(rt: HostRuntime) {
    expect_runs(&rt, rt.alloc(), JOBS);
}

/// Runs of other scripts.
const SCRIPTS: &[Case] = &[
    // Longer scripts.
    Case {
        script: "work 2",
        report: "busy 2 debt 0\nhigh a response 2 deadline 10\ndone a jobs 1 latest 2\ncycles 0 collector 0 idle 8\nend 10\n",
        ..CASE
    },
    Case {
        script: "out v0\\nout v7",
        report: "busy 2 debt 0\nhigh a response 2 deadline 10\nout 0 a 0\nout 1 a 0\ndone a jobs 1 latest 2\ncycles 0 collector 0 idle 8\nend 10\n",
        ..CASE
    },
    Case {
        ticks: 12,
        period: 6,
        deadline: 6,
        cost: 6,
        every: 6,
        script: "out v1\\nwork 2\\nout v2\\nwork 1\\nout v3",
        report: "busy 6 debt 0\nhigh a response 6 deadline 6\nout 0 a 0\nout 3 a 0\nout 5 a 0\nout 6 a 0\nout 9 a 0\nout 11 a 0\ndone a jobs 2 latest 6\ncycles 0 collector 0 idle 0\nend 12\n",
        ..CASE
    },
    Case {
        ticks: 5,
        period: 65535,
        deadline: 65535,
        cost: 65535,
        every: 65535,
        script: "work 65535",
        report: "busy 65535 debt 0\nhigh a response 65535 deadline 65535\ndone a jobs 0 latest 0\ncycles 0 collector 0 idle 0\nend 5\n",
        ..CASE
    },
    Case {
        ticks: 65536,
        period: 65535,
        deadline: 65535,
        cost: 65535,
        every: 65535,
        script: "work 65534\\nout v0",
        report: "busy 65535 debt 0\nhigh a response 65535 deadline 65535\nout 65534 a 0\ndone a jobs 1 latest 65535\ncycles 0 collector 0 idle 0\nend 65536\n",
        ..CASE
    },
    // The job's number, variables and blocks: the loop is left by a fourth tick of its test.
    Case {
        ticks: 20,
        cost: 7,
        script: "set v0 3\\nrepeat 2\\nadd v0 v0\\nend\\nout v0",
        report: "busy 7 debt 0\nhigh a response 7 deadline 10\nout 6 a 12\nout 16 a 12\ndone a jobs 2 latest 7\ncycles 0 collector 0 idle 6\nend 20\n",
        ..CASE
    },
    Case {
        ticks: 6,
        period: 2,
        deadline: 2,
        every: 2,
        script: "job v3\\nout v3",
        report: "busy 2 debt 0\nhigh a response 2 deadline 2\nout 1 a 0\nout 3 a 1\nout 5 a 2\ndone a jobs 3 latest 2\ncycles 0 collector 0 idle 0\nend 6\n",
        ..CASE
    },
    // A job that takes the shorter way ends before its cost.
    Case {
        ticks: 20,
        cost: 6,
        script: "job v0\\nif v0 < v1\\nwork 4\\nelse\\nwork 1\\nend",
        report: "busy 6 debt 0\nhigh a response 6 deadline 10\ndone a jobs 2 latest 3\ncycles 0 collector 0 idle 14\nend 20\n",
        ..CASE
    },
];

#[test]
fn runs_other_scripts(rt: HostRuntime) {
    expect_runs(&rt, rt.alloc(), SCRIPTS);
}
