// The jobs that may come next from a part-plan, when each of them starts, and which of them is the next to be tried.
#![tactic(auto)]

ghost use Rattle.std.specs.Prelude.{◌≡◌, true, ◌+◌, ◌-◌, ◌*◌, ◌%◌, ◌<◌, ◌≤◌};
ghost use Rattle.figures.specs.Figures.{most_jobs};
ghost use Rattle.bits.specs.Bits.{bit};
ghost use Rattle.tables.specs.Tables.{count_of};
ghost use Rattle.candidates.specs.Candidates.{Known, JobStart, JobStarts, LowerRank, ChoiceOf};

use bits::Set;
use figures::{MOST_JOBS, NO_MINUTE};
use tables::{Jobs, Part, Prepared};

// ---- starts

// The start of each job that may come next (NO_MINUTE for the others), and the least of them.
#[derive(Drop)]
pub struct Starts {
    pub at: [u16; MOST_JOBS],
    pub least: u16,
}

// The start of the unplaced job j, or NO_MINUTE where it may not come next.
fn next_start(jobs: &Jobs, part: &Part, j: usize) -> u16
    requires { (Known jobs.now part.now) × ((j < count_of jobs.now) × (bit part.now.unplaced j ≡ true)) }
    ensures { JobStart jobs.now part.now j result }
{
    if placement::may_follow(jobs, part, j) {
        return placement::start_of(jobs, part, j);
    }
    NO_MINUTE
}

// The start of job j, or NO_MINUTE where it may not come next.
pub fn start_or_none(jobs: &Jobs, part: &Part, j: usize) -> u16
    requires { (Known jobs.now part.now) × (j < count_of jobs.now) }
    ensures { JobStart jobs.now part.now j result }
{
    if part.unplaced.has(j) {
        return next_start(jobs, part, j);
    }
    NO_MINUTE
}

// The starts of all jobs that may come next.
pub fn starts_of(jobs: &Jobs, part: &Part) -> Starts
    requires { Known jobs.now part.now }
    ensures { JobStarts jobs.now part.now result.at result.least }
{
    let mut at = [NO_MINUTE; MOST_JOBS];
    let mut least: u16 = NO_MINUTE;
    for j in part.unplaced.below(jobs.count()).members() {
        let s = next_start(jobs, part, j);
        at[j] = s;
        least = least.min(s);
    }
    Starts { at, least }
}

// ---- the next job

// A job that may come next, and its start; the start NO_MINUTE stands for none.
#[derive(Drop)]
pub struct Choice {
    pub job: usize,
    pub start: u16,
}

// A job and its rank, which is less for an earlier start and, at the same minute, for a longer chain.
#[derive(Drop)]
struct Ranked {
    job: usize,
    rank: u32,
}

// The rank of no job.
const NO_RANK: u32 = 4294901760;

// The rank of a job.
fn rank_of(start: u16, chain: u32) -> u32
    ensures { (result ≡ start * 65536 + (65535 - chain % 65536)) × (start ≤ 65535) }
{
    (start as u32) * 65536 + (65535 - chain % 65536)
}

// The choice so far, or job j where its rank is less.
fn choose(c: Ranked, j: usize, rank: u32) -> Ranked
    ensures { LowerRank c.job c.rank j rank result.job result.rank }
{
    if rank < c.rank {
        return Ranked { job: j, rank };
    }
    c
}

// The job of the set to come next, by the least start and, of those, the longest chain.
pub fn next_choice(prepared: &Prepared, at: &[u16; MOST_JOBS], set: u32, count: usize) -> Choice
    requires { count ≤ most_jobs }
    ensures { ChoiceOf at.now set count result }
{
    let mut c = Ranked {
        job: 0,
        rank: NO_RANK,
    };
    for j in set.below(count).members() {
        c = choose(c, j, rank_of(at[j], prepared.tails[j]));
    }
    Choice {
        job: c.job,
        start: (c.rank / 65536) as u16,
    }
}
