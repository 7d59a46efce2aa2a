// What follows from a sheet's jobs alone, made once for a search: the longest chains, and for each job the jobs that are alike, those that may
// be swapped with it and those that can run beside it.
#![tactic(auto)]

ghost use Rattle.std.specs.Prelude.{◌≡◌, cond, ◌+◌, ◌<◌, ◌≤◌, length, get_or};
ghost use Rattle.figures.specs.Figures.{most_jobs};
ghost use Rattle.counting.specs.Counting.{only, largest};
ghost use Rattle.bits.specs.Bits.{bit, with_bit};
ghost use Rattle.tables.specs.Tables.{earlier_at, count_of, Fit};
ghost use Rattle.relations.specs.Relations.{ChainsOf, Laters, LaterOf, all_places, PairPut, RowOf, with_row, Related};

use bits::Set;
use figures::MOST_JOBS;
use tables::Jobs;

// ---- chains

// The chain behind a job j that ends with a job of this set of earlier jobs: its minutes, where j is in the set.
fn behind(tail: u16, set: u32, j: usize) -> u16
    requires { j < most_jobs }
    ensures { result ≡ only (bit set j) tail }
{
    if set.has(j) {
        return tail;
    }
    0
}

// The longest chain behind job j.
fn longest_behind(tails: &[u16; MOST_JOBS], jobs: &Jobs, j: usize) -> u16
    requires { (count_of jobs.now ≤ most_jobs) × (j < most_jobs) }
    ensures { result ≡ largest (count_of jobs.now)
        (λ i. only (bit (earlier_at jobs.now i) j) (get_or tails.now i 0)) }
{
    let n = jobs.count();
    let mut r: u16 = 0;
    for i in 0..n {
        r = r.max(behind(tails[i], jobs.earlier(i), j));
    }
    r
}

// The longest chain that begins with each job.
#[derive(Drop)]
pub struct Tails {
    pub at: [u16; MOST_JOBS],
}

// The longest chains of k + 1 jobs, from those of k.
fn lengthen(jobs: &Jobs, tails: Tails, k: usize) -> Tails
    requires { (Fit jobs.now) × ((ChainsOf jobs.now tails.at k) × (k < most_jobs)) }
    ensures { ChainsOf jobs.now result.at (k + 1) }
{
    let n = jobs.count();
    let mut next = [0u16; MOST_JOBS];
    for j in 0..n {
        next[j] = jobs.minutes(j) + longest_behind(&tails.at, jobs, j);
    }
    Tails { at: next }
}

// The longest chain that begins with each job.
pub fn chains(jobs: &Jobs) -> Tails
    requires { Fit jobs.now }
    ensures { ChainsOf jobs.now result.at (count_of jobs.now) }
{
    let n = jobs.count();
    let mut tails = Tails {
        at: [0u16; MOST_JOBS],
    };
    for k in 0..n {
        tails = lengthen(jobs, tails, k);
    }
    tails
}

// ---- the jobs that wait for each job

// The set with k, where job k waits for job i.
fn with_later(set: u32, earlier: u32, i: usize, k: usize) -> u32
    requires { (i < most_jobs) × (k < most_jobs) }
    ensures { result ≡ cond (bit earlier i) (with_bit set k) set }
{
    if earlier.has(i) {
        return set.with(k);
    }
    set
}

// The later jobs of job i.
fn later_of(jobs: &Jobs, i: usize) -> u32
    requires { (count_of jobs.now ≤ most_jobs) × (i < most_jobs) }
    ensures { LaterOf jobs.now i (count_of jobs.now) result }
{
    let n = jobs.count();
    let mut set: u32 = 0;
    for k in 0..n {
        set = with_later(set, jobs.earlier(k), i, k);
    }
    set
}

// The later jobs of each job.
#[derive(Drop)]
pub struct LaterJobs {
    pub of: [u32; MOST_JOBS],
}

fn later_jobs(jobs: &Jobs) -> LaterJobs
    requires { count_of jobs.now ≤ most_jobs }
    ensures { Laters jobs.now result.of }
{
    let n = jobs.count();
    let mut of = [0u32; MOST_JOBS];
    for i in 0..n {
        of[i] = later_of(jobs, i);
    }
    LaterJobs { of }
}

// ---- pairs of jobs

// Of one job: the jobs that are alike, those that may be swapped with it, and those that can run beside it.
#[derive(Drop)]
pub struct Row {
    pub alike: u32,
    pub swapping: u32,
    pub beside: u32,
}

// The row of job j, the second, with job i, the first, in those of its sets to which it belongs.
fn with_pair(row: Row, jobs: &Jobs, later: &[u32; MOST_JOBS], i: usize, j: usize) -> Row
    requires { (i < most_jobs) × (j < most_jobs) }
    ensures { PairPut row jobs.now later.now i j result }
{
    let need1 = jobs.need(i);
    let need2 = jobs.need(j);
    let later1 = later[i];
    let later2 = later[j];
    let a = pairs::alike(
        need1,
        need2,
        jobs.minutes(i),
        jobs.minutes(j),
        later1,
        later2,
    );
    let s = pairs::may_swap(need1, need2, later1, later2);
    let b = pairs::fits_beside(need1, need2, jobs.modules(), i, j);
    Row {
        alike: pairs::joined(row.alike, a, i),
        swapping: pairs::joined(row.swapping, s, i),
        beside: pairs::joined(row.beside, b, i),
    }
}

// The row of job j.
fn row_of(jobs: &Jobs, later: &[u32; MOST_JOBS], j: usize) -> Row
    requires { (Laters jobs.now later.now) × ((count_of jobs.now ≤ most_jobs) × (j < count_of jobs.now)) }
    ensures { RowOf jobs.now j (count_of jobs.now) result }
{
    let n = jobs.count();
    let mut row = Row {
        alike: 0,
        swapping: 0,
        beside: 0,
    };
    for i in 0..n {
        row = with_pair(row, jobs, later, i, j);
    }
    row
}

// The places of one row, and of the rows of all jobs.
pub const ROW: usize = 3;

pub const ROWS: usize = 60;

// The rows of all jobs: job j's sets are at places 3 * j, 3 * j + 1 and 3 * j + 2.
#[derive(Drop)]
pub struct Relations {
    pub of: [u32; ROWS],
}

// The rows with that of job j.
fn with_row(all: Relations, j: usize, row: Row) -> Relations
    requires { (j < most_jobs) × (length all.of ≡ all_places) }
    ensures { result.of ≡ with_row all.of j row }
{
    let mut next = all;
    next.of[j * ROW] = row.alike;
    next.of[j * ROW + 1] = row.swapping;
    next.of[j * ROW + 2] = row.beside;
    next
}

// The rows of all jobs of a sheet.
pub fn relate(jobs: &Jobs) -> Relations
    requires { count_of jobs.now ≤ most_jobs }
    ensures { Related jobs.now result.of }
{
    let laters = later_jobs(jobs);
    let later = laters.of;
    let n = jobs.count();
    let mut all = Relations { of: [0u32; ROWS] };
    for j in 0..n {
        let row = row_of(jobs, &later, j);
        all = with_row(all, j, row);
    }
    all
}
