// Slack: how long each job may wait before it or a job that follows it misses its departure, and which earlier-job marks others imply.
#![tactic(auto)]

ghost use Rattle.std.specs.Prelude.{◌≡◌, ◌<◌, ◌≤◌, pos, ◌-ℤ◌, length, replicate};
ghost use Rattle.figures.specs.Figures.{most_jobs, last_end};
ghost use Rattle.schedule.specs.Plan.{Circular};
ghost use Rattle.tables.specs.Tables.{sheet_of, count_of, Fit};
ghost use Rattle.latest.specs.Counted.{Departing};
ghost use Rattle.planable.specs.Planable.{sheet_in, planable_refusal, work_after};
ghost use Rattle.slack.specs.Slack.{no_slack, no_slacks, slacks};
ghost use Rattle.slack.specs.Parts.{StartsLow, DeparturesOf, PlannedStarts, entry_from, slacks_from, SlacksOf};

use figures::MOST_JOBS;
use latest::MINUTE_ZERO;
use listing::Found;
use tables::Jobs;

// A job's latest start, the slack of its planned start, and its earlier-job marks that others imply, a set.
#[repr(C)]
#[derive(Clone, Copy)]
pub struct JobSlack {
    pub latest_start: i32,
    pub slack: i32,
    pub implied: u32,
}

// What is answered: refusal 0 with an entry for each job, or the number of the refusal with all else 0.
#[repr(C)]
#[derive(Drop)]
pub struct Slacks {
    pub refusal: u32,
    pub jobs: [JobSlack; MOST_JOBS],
    pub count: usize,
}

// An entry past the last job.
fn no_slack() -> JobSlack
    ensures { result ≡ no_slack }
{
    JobSlack {
        latest_start: 0,
        slack: 0,
        implied: 0,
    }
}

// What a refused call answers.
fn no_slacks(refusal: u32) -> Slacks
    ensures { result ≡ no_slacks refusal }
{
    let jobs = [no_slack(); MOST_JOBS];
    Slacks {
        refusal,
        jobs,
        count: 0,
    }
}

// The difference of two minutes, which may be negative.
fn minus(a: u16, b: u16) -> i32
    ensures { result ≡ (pos a -ℤ pos b) }
{
    (a as i32) - (b as i32)
}

// A minute for each job.
#[derive(Drop)]
pub struct Minutes {
    pub of: [u16; MOST_JOBS],
}

// The departures on a sheet.
fn departures_of(sheet: &[u8]) -> Minutes
    requires { planable_refusal sheet.now ≡ 0 }
    ensures { DeparturesOf sheet.now (sheet_in sheet.now).jobs result.of }
{
    let found = sheet::read(sheet);
    let mut of = [0u16; MOST_JOBS];
    for j in 0..found.count {
        of[j] = found.jobs[j].departure;
    }
    Minutes { of }
}

// The starts of the tie rule's plan; the working memory is left all zero.
fn planned_starts(jobs: &Jobs, work: &mut [u8]) -> Minutes
    requires { (Fit jobs.now) × (¬ Circular (sheet_of jobs.now)) }
    ensures starts { PlannedStarts (sheet_of jobs.now) result.of }
    ensures cleared { work.new ≡ replicate (length work.old) 0 }
{
    let best: Found = search::run(work, jobs);
    let order = best.order;
    let slots = replay::replay(jobs, &order);
    let of = slots.start;
    Minutes { of }
}

// An entry, from a latest start as it is counted, a planned start and a set of marks.
fn entry(latest: u16, start: u16, implied: u32) -> JobSlack
    requires { start ≤ last_end }
    ensures { result ≡ entry_from latest start implied }
{
    JobSlack {
        latest_start: minus(latest, MINUTE_ZERO),
        slack: minus(latest, MINUTE_ZERO + start),
        implied,
    }
}

// The entries of the first jobs, from lists of these.
fn entries(
    latest: &[u16; MOST_JOBS],
    starts: &[u16; MOST_JOBS],
    implied: &[u32; MOST_JOBS],
    count: usize,
) -> Slacks
    requires { (count ≤ most_jobs) × (StartsLow count starts.now) }
    ensures { result ≡ slacks_from latest.now starts.now implied.now count }
{
    let mut answer = no_slacks(0);
    answer.count = count;
    for j in 0..count {
        answer.jobs[j] = entry(latest[j], starts[j], implied[j]);
    }
    answer
}

// The slacks of a job table; the working memory is left all zero.
fn slacks_of(jobs: &Jobs, departures: &[u16; MOST_JOBS], work: &mut [u8]) -> Slacks
    requires { (Fit jobs.now) × (¬ Circular (sheet_of jobs.now)) × (Departing jobs.now departures.now) }
    ensures answer { SlacksOf jobs.now departures.now result }
    ensures cleared { work.new ≡ replicate (length work.old) 0 }
{
    let planned = planned_starts(jobs, work);
    let starts = planned.of;
    let last = latest::latest_starts(jobs, departures);
    let latest = last.of;
    let marks = marks::implied_marks(jobs);
    let implied = marks.of;
    entries(&latest, &starts, &implied, jobs.count())
}

// An entry for each job, or the first refusal of 1 to 9 and 19. Answered, the working memory is all zero; refused, it is as before.
pub fn slack(sheet: &[u8], work: &mut [u8]) -> Slacks
    ensures answer { result ≡ slacks sheet.now }
    ensures work { work.new ≡ work_after (planable_refusal sheet.now) work.old }
{
    match planable::front(sheet) {
        Ok(jobs) => slacks_of(&jobs, &departures_of(sheet).of, work),
        Err(refusal) => no_slacks(refusal.number()),
    }
}
