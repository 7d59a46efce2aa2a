// A minute for each of the jobs that are left before which it cannot start: its release.
#![tactic(auto)]

ghost use Rattle.std.specs.Prelude.{◌≡◌, true, cond, ℕ, ◌+◌, ◌<◌, ◌≤◌, eqb, get_or, replicate};
ghost use Rattle.figures.specs.Figures.{most_jobs, no_minute};
ghost use Rattle.bits.specs.Bits.{bit};
ghost use Rattle.tables.specs.Tables.{minutes_at, earlier_at, count_of, Fit};
ghost use Rattle.weights.specs.Weights.{Put};
ghost use Rattle.releases.specs.Releases.{first_at, Releases};

use bits::Set;
use figures::{MOST_JOBS, NO_MINUTE};
use tables::Jobs;
use values::Figures;

// ---- by the modules that are free

// The first minute of a job by its start, which is NO_MINUTE where it may not come next.
fn first_of(start: u16, least: u16) -> u16
    ensures { result ≡ cond (eqb start no_minute) least start }
{
    if start == NO_MINUTE {
        return least;
    }
    start
}

// The first minutes of all jobs by their starts.
fn firsts_of(at: &[u16; MOST_JOBS], least: u16) -> Figures
    ensures { Put (λ k. k) (replicate most_jobs 0) result.of most_jobs (first_at at.now least) }
{
    let mut next = [0u16; MOST_JOBS];
    for k in 0..MOST_JOBS {
        next[k] = first_of(at[k], least);
    }
    Figures { of: next }
}

// ---- by the jobs that must have ended before

// The largest minutes that are added up.
const LARGE: u16 = 32767;

// When a job with this release and so many minutes has ended, or its release where these are large.
fn end_of(release: u16, minutes: u16) -> u16
    ensures { result ≤ release + minutes }
{
    if release > LARGE {
        return release;
    }
    if minutes > LARGE {
        return release;
    }
    release + minutes
}

// When the last job of a set has ended.
fn ended(release: &[u16; MOST_JOBS], jobs: &Jobs, set: u32) -> u16
    requires { (i : ℕ) → bit set i ≡ true → i < most_jobs }
    ensures { (x : ℕ) → ((i : ℕ) → bit set i ≡ true → get_or release.now i 0 + minutes_at jobs.now i ≤ x) → result ≤ x }
{
    let mut latest: u16 = 0;
    for i in set.members() {
        latest = latest.max(end_of(release[i], jobs.minutes(i)));
    }
    latest
}

// The release of job k, not before those of the set that must have ended before have.
fn raised(release: &[u16; MOST_JOBS], jobs: &Jobs, set: u32, k: usize) -> u16
    requires { (Fit jobs.now) × (k < count_of jobs.now) }
    ensures { (get_or release.now k 0 ≤ result) × ((x : ℕ) → get_or release.now k 0 ≤ x
        → ((i : ℕ) → i < count_of jobs.now → bit set i ≡ true → bit (earlier_at jobs.now k) i ≡ true
        → get_or release.now i 0 + minutes_at jobs.now i ≤ x) → result ≤ x) }
{
    let count = jobs.count();
    let before = (jobs.earlier(k) & set).below(count);
    let least = ended(release, jobs, before);
    release[k].max(least)
}

// The releases of the jobs of a set, none of which starts before its start in `at`, or minute `least` where it may not come next. Waits for jobs
// with higher numbers are seen one by one, not as chains.
pub fn releases_of(jobs: &Jobs, set: u32, at: &[u16; MOST_JOBS], least: u16) -> Figures
    requires { (Fit jobs.now) × ((k : ℕ) → k < count_of jobs.now → least ≤ get_or at.now k 0) }
    ensures { Releases jobs.now at.now set least result.of }
{
    let count = jobs.count();
    let first = firsts_of(at, least);
    let mut next = first.of;
    for k in 0..count {
        let r = raised(&next, jobs, set, k);
        next[k] = r;
    }
    Figures { of: next }
}
