// The latest start of each job: the one by which it and all jobs that follow it can still meet their departures.
#![tactic(auto)]

ghost use Rattle.std.specs.Prelude.{◌≡◌, cond, ◌-◌, ◌<◌, ◌≤◌, min};
ghost use Rattle.figures.specs.Figures.{most_jobs};
ghost use Rattle.tables.specs.Tables.{count_of, Fit};
ghost use Rattle.latest.specs.Counted.{Departing, Ample, own_start, start_by, OwnStarts, NextStarts, LatestStarts};

use bits::Set;
use figures::MOST_JOBS;
use tables::Jobs;

// Latest starts are counted from so many minutes before minute 0: a chain of all jobs and one more takes no longer, so none is below 0.
pub const MINUTE_ZERO: u16 = 30240;

// A start for each job.
#[derive(Drop)]
pub struct Starts {
    pub of: [u16; MOST_JOBS],
}

// The latest start of job j by its own departure.
fn own_start(jobs: &Jobs, departures: &[u16; MOST_JOBS], j: usize) -> u16
    requires { (Fit jobs.now) × (Departing jobs.now departures.now) × (j < count_of jobs.now) }
    ensures { result ≡ own_start jobs.now departures.now j }
{
    MINUTE_ZERO + departures[j] - jobs.minutes(j)
}

// The latest starts by the jobs' own departures.
fn own_starts(jobs: &Jobs, departures: &[u16; MOST_JOBS]) -> Starts
    requires { (Fit jobs.now) × (Departing jobs.now departures.now) }
    ensures { OwnStarts jobs.now departures.now (count_of jobs.now) result.of }
{
    let n = jobs.count();
    let mut of = [0u16; MOST_JOBS];
    for j in 0..n {
        of[j] = own_start(jobs, departures, j);
    }
    Starts { of }
}

// The sooner of two starts where the second one counts: one from which a job of so many minutes ends by `end`.
fn sooner(start: u16, counts: bool, end: u16, minutes: u16) -> u16
    requires { minutes ≤ end }
    ensures { result ≡ cond counts (min start (end - minutes)) start }
{
    if counts {
        start.min(end - minutes)
    } else {
        start
    }
}

// The latest start of job j by its own departure, and by the starts of the jobs that wait for it.
fn start_by(jobs: &Jobs, departures: &[u16; MOST_JOBS], starts: &[u16; MOST_JOBS], j: usize) -> u16
    requires { (Fit jobs.now) × (Departing jobs.now departures.now) × (Ample jobs.now starts.now) × (j < count_of jobs.now) }
    ensures { result ≡ start_by jobs.now departures.now starts.now (count_of jobs.now) j }
{
    let n = jobs.count();
    let minutes = jobs.minutes(j);
    let mut start = own_start(jobs, departures, j);
    for i in 0..n {
        let waits = jobs.earlier(i).has(j);
        start = sooner(start, waits, starts[i], minutes);
    }
    start
}

// The starts of one more round.
fn next_starts(jobs: &Jobs, departures: &[u16; MOST_JOBS], starts: &[u16; MOST_JOBS]) -> Starts
    requires { (Fit jobs.now) × (Departing jobs.now departures.now) × (Ample jobs.now starts.now) }
    ensures { NextStarts jobs.now departures.now starts.now (count_of jobs.now) result.of }
{
    let n = jobs.count();
    let mut of = [0u16; MOST_JOBS];
    for j in 0..n {
        of[j] = start_by(jobs, departures, starts, j);
    }
    Starts { of }
}

// The latest starts, counted from MINUTE_ZERO minutes before minute 0: by the jobs' own departures, and then as many rounds as there are jobs,
// since no chain is longer.
pub fn latest_starts(jobs: &Jobs, departures: &[u16; MOST_JOBS]) -> Starts
    requires { (Fit jobs.now) × (Departing jobs.now departures.now) }
    ensures { LatestStarts jobs.now departures.now result.of }
{
    let n = jobs.count();
    let mut starts = own_starts(jobs, departures);
    for k in 0..n {
        starts = next_starts(jobs, departures, &starts.of);
    }
    starts
}
