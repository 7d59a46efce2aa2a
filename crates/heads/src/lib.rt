// The minute before which each job cannot start, by arrivals and earlier jobs; made once for a search.
#![tactic(auto)]

ghost use Rattle.std.specs.Prelude.{◌≡◌, ◌+◌, ◌<◌, ◌≤◌, max, get_or};
ghost use Rattle.figures.specs.Figures.{most_jobs, last_end};
ghost use Rattle.counting.specs.Counting.{only, largest};
ghost use Rattle.bits.specs.Bits.{bit};
ghost use Rattle.tables.specs.Tables.{minutes_at, earlier_at, count_of, Fit};
ghost use Rattle.heads.specs.Heads.{HeadsOf, AllShort};

use bits::Set;
use figures::MOST_JOBS;
use tables::{Jobs, Prepared};

// The minute before which job i cannot end, where it is in the set.
fn end_of(heads: &[u16; MOST_JOBS], jobs: &Jobs, set: u32, i: usize) -> u16
    requires { (i < most_jobs) × (get_or heads.now i 0 + minutes_at jobs.now i ≤ last_end) }
    ensures { result ≡ only (bit set i) (get_or heads.now i 0 + minutes_at jobs.now i) }
{
    if set.has(i) {
        return heads[i] + jobs.minutes(i);
    }
    0
}

// The last of these minutes over the earlier jobs of job j.
fn latest_end(heads: &[u16; MOST_JOBS], jobs: &Jobs, j: usize) -> u16
    requires { (count_of jobs.now ≤ most_jobs) × ((j < most_jobs) × (AllShort jobs.now heads.now)) }
    ensures { result ≡ largest (count_of jobs.now)
        (λ i. only (bit (earlier_at jobs.now j) i) (get_or heads.now i 0 + minutes_at jobs.now i)) }
{
    let n = jobs.count();
    let earlier = jobs.earlier(j);
    let mut r: u16 = 0;
    for i in 0..n {
        r = r.max(end_of(heads, jobs, earlier, i));
    }
    r
}

// The minute before which each job cannot start.
#[derive(Drop)]
pub struct Heads {
    pub at: [u16; MOST_JOBS],
}

// As chains of k + 1 jobs tell it, from what those of k tell.
fn advance(jobs: &Jobs, heads: Heads, k: usize) -> Heads
    requires { (Fit jobs.now) × ((HeadsOf jobs.now heads.at k) × (k < most_jobs)) }
    ensures { HeadsOf jobs.now result.at (k + 1) }
{
    let n = jobs.count();
    let mut next = [0u16; MOST_JOBS];
    for j in 0..n {
        next[j] = jobs.arrival(j).max(latest_end(&heads.at, jobs, j));
    }
    Heads { at: next }
}

// As all chains tell it.
pub fn of_all(jobs: &Jobs) -> Heads
    requires { Fit jobs.now }
    ensures { HeadsOf jobs.now result.at (count_of jobs.now) }
{
    let n = jobs.count();
    let mut heads = Heads {
        at: [0u16; MOST_JOBS],
    };
    for k in 0..n {
        heads = advance(jobs, heads, k);
    }
    heads
}

// The first minute at which job k can start from minute l on.
pub fn first_start(prepared: &Prepared, l: u16, k: usize) -> u32
    requires { k < most_jobs }
    ensures { result ≡ max l (get_or prepared.now.heads k 0) }
{
    let head = prepared.heads[k];
    if head <= (l as u32) {
        return l as u32;
    }
    head
}
