// The sums of the minutes for which the jobs of each choice from a set keep their modules, and the largest of them that fits.
#![tactic(auto)]

ghost use Rattle.std.specs.Prelude.{◌≡◌, ◌+◌, ◌<◌, ◌≤◌, leb, length};
ghost use Rattle.counting.specs.Counting.{only};
ghost use Rattle.figures.specs.Figures.{most_jobs};
ghost use Rattle.tables.specs.Tables.{kept_at, most_kept, count_of, Fit};
ghost use Rattle.choices.specs.Choices.{SumsOf, Room, Doubled, longest};

use bits::Set;
use tables::Jobs;

// ---- the sums of all choices from a set

// The sums with those of one job more, which keeps its modules for so long, behind them.
fn add_job(at: &mut [u16], count: usize, kept: u16)
    requires { Room at.old count kept }
    ensures { Doubled at.old at.new count kept }
{
    for i in 0..count {
        at[count + i] = at[i] + kept;
    }
}

// The same where job j is in the set; the number of sums after it, 0 where there is no room for them.
fn with_job(at: &mut [u16], count: usize, jobs: &Jobs, set: u32, j: usize) -> usize
    requires { (SumsOf jobs.now set j at.old count) × ((j < most_jobs) × (kept_at jobs.now j ≤ most_kept)) }
    ensures { SumsOf jobs.now set (j + 1) at.new result }
{
    if !set.has(j) {
        return count;
    }
    if 2 * count > at.len() {
        return 0;
    }
    add_job(at, count, jobs.kept(j));
    2 * count
}

// The sums of the set's jobs and their number, or 0 where they have no room.
pub fn subset_sums(at: &mut [u16], jobs: &Jobs, set: u32) -> usize
    requires { (0 < length at.old) × (Fit jobs.now) }
    ensures { SumsOf jobs.now set (count_of jobs.now) at.new result }
{
    at[0] = 0;
    let mut count: usize = 1;
    for j in set.below(jobs.count()).members() {
        count = with_job(at, count, jobs, set, j);
    }
    count
}

// ---- the largest sum that fits

// A sum that is not above x, or 0.
fn fitting(s: u16, x: u16) -> u16
    ensures { result ≡ only (leb s x) s }
{
    if s <= x { s } else { 0 }
}

// The largest of the sums that is not above x.
pub fn longest_fit(at: &[u16], count: usize, x: u16) -> u16
    requires { count ≤ length at.now }
    ensures { result ≡ longest at.now count x }
{
    let mut r: u16 = 0;
    for i in 0..count {
        r = r.max(fitting(at[i], x));
    }
    r
}
