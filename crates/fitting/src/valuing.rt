// Values of the jobs that are left, made of the shares on the slate.
ghost use Rattle.std.specs.Prelude.{◌≡◌, false, ℕ, ◌*◌, ◌<◌, ◌≤◌, length, get_or};
ghost use Rattle.counting.specs.Counting.{sum};
ghost use Rattle.tables.specs.Tables.{need_at, count_of, Fit};
ghost use Rattle.fitting.specs.Fitting.{top_value, Valued, NoneBeside};

use super::{CELLS, Slate};
use bits::Set;
use figures::MOST_JOBS;
use tables::Jobs;
use values::Figures;

// The largest value, and how many shares a unit of value has.
const MOST_VALUE: u16 = 1600;

const SHARES: u16 = 16;

// A job's value by its share; none where it is placed or keeps its modules for less than a step.
fn value_of(share: u16, kept: u16, step: u16, left: bool) -> u16
    ensures { (result ≤ top_value) × ((kept < step → result ≡ 0) × (left ≡ false → result ≡ 0)) }
{
    if !left {
        return 0;
    }
    if kept < step {
        return 0;
    }
    (share / SHARES).min(MOST_VALUE)
}

// The values of the jobs of a set.
pub fn values_of(slate: &Slate, jobs: &Jobs, set: u32, step: u16) -> Figures
    requires { Fit jobs.now }
    ensures { (Valued jobs.now step result.of) × (NoneBeside set result.of) }
{
    let count = jobs.count();
    let mut next = [0u16; MOST_JOBS];
    for k in 0..count {
        let left = set.has(k);
        next[k] = value_of(slate[CELLS + k], jobs.kept(k), step, left);
    }
    Figures { of: next }
}

// What the jobs are worth, each on as many lanes as it needs modules.
pub fn worth_of(jobs: &Jobs, value: &[u16; MOST_JOBS]) -> u32
    requires { (Fit jobs.now) × ((k : ℕ) → get_or value.now k 0 ≤ top_value) }
    ensures { result ≡ sum (count_of jobs.now) (λ k. need_at jobs.now k * get_or value.now k 0) }
{
    let count = jobs.count();
    let mut total: u32 = 0;
    for k in 0..count {
        total += counting::times(jobs.need(k), value[k]);
    }
    total
}

// The share of the job that keeps its modules longest, before the first table.
const FIRST_SHARE: u32 = 19200;

// How long the job that keeps its modules longest does, or 1 minute where there is none.
fn longest_of(jobs: &Jobs) -> u16
    requires { Fit jobs.now }
    ensures { 0 < result }
{
    let count = jobs.count();
    let mut longest: u16 = 1;
    for k in 0..count {
        longest = longest.max(jobs.kept(k));
    }
    longest
}

// A job's first share.
fn first_share(kept: u16, longest: u16) -> u16
    requires { 0 < longest }
{
    let share = (kept as u32) * FIRST_SHARE / (longest as u32);
    if share > FIRST_SHARE {
        return FIRST_SHARE as u16;
    }
    share as u16
}

// The shares before the first table: as long as each job keeps its modules.
pub fn put_shares(slate: &mut Slate, jobs: &Jobs)
    requires { Fit jobs.now }
    ensures { length slate.new ≡ length slate.old }
{
    let count = jobs.count();
    let longest = longest_of(jobs);
    for k in 0..count {
        slate[CELLS + k] = first_share(jobs.kept(k), longest);
    }
}
