// Which jobs follow which, directly or through others: sets of jobs, made once of a job table.
#![tactic(auto)]

ghost use Rattle.std.specs.Prelude.{◌≡◌, cond, ◌<◌, ◌≤◌};
ghost use Rattle.std.specs.Int.Bits.{bit_or};
ghost use Rattle.figures.specs.Figures.{most_jobs};
ghost use Rattle.bits.specs.Bits.{bit};
ghost use Rattle.tables.specs.Tables.{sheet_of, count_of};
ghost use Rattle.marks.specs.Marks.{Reached, Further, FollowedBy, FollowedTo, LaterThan, LaterTo, Marked};
ghost use Rattle.marks.specs.Implied.{implied_marks, ImpliedTo};

use bits::Set;
use figures::MOST_JOBS;
use tables::Jobs;

// The set with these earlier jobs of job a, where a is one of `from`.
fn with_earlier(set: u32, from: u32, a: usize, earlier: u32) -> u32
    requires { a < most_jobs }
    ensures { result ≡ cond (bit from a) (bit_or set earlier) set }
{
    if from.has(a) { set | earlier } else { set }
}

// The earlier jobs of each job of the set.
fn reached(jobs: &Jobs, set: u32) -> u32
    requires { count_of jobs.now ≤ most_jobs }
    ensures { Reached jobs.now set (count_of jobs.now) result }
{
    let n = jobs.count();
    let mut all = 0;
    for a in 0..n {
        all = with_earlier(all, set, a, jobs.earlier(a));
    }
    all
}

// The earlier jobs of job j and of each job of the set.
fn further(jobs: &Jobs, j: usize, set: u32) -> u32
    requires { (count_of jobs.now ≤ most_jobs) × (j < most_jobs) }
    ensures { Further jobs.now j set result }
{
    jobs.earlier(j) | reached(jobs, set)
}

// The jobs that job j follows: its earlier jobs, and from there as many steps as there are jobs.
fn followed_by(jobs: &Jobs, j: usize) -> u32
    requires { (count_of jobs.now ≤ most_jobs) × (j < most_jobs) }
    ensures { FollowedBy jobs.now j result }
{
    let n = jobs.count();
    let mut set = jobs.earlier(j);
    for k in 0..n {
        set = further(jobs, j, set);
    }
    set
}

// A set for each job.
#[derive(Drop)]
pub struct JobSets {
    pub of: [u32; MOST_JOBS],
}

// The jobs that each job follows.
fn all_followed(jobs: &Jobs) -> JobSets
    requires { count_of jobs.now ≤ most_jobs }
    ensures { FollowedTo jobs.now (count_of jobs.now) result.of }
{
    let n = jobs.count();
    let mut of = [0u32; MOST_JOBS];
    for j in 0..n {
        of[j] = followed_by(jobs, j);
    }
    JobSets { of }
}

// The jobs below n that follow job i.
fn later_than(before: &[u32; MOST_JOBS], i: usize, n: usize) -> u32
    requires { (i < most_jobs) × (n ≤ most_jobs) }
    ensures { LaterThan before.now i n result }
{
    let mut set = 0;
    for j in 0..n {
        set = pairs::joined(set, before[j].has(i), j);
    }
    set
}

// The jobs below n that follow each of them.
fn all_later(before: &[u32; MOST_JOBS], n: usize) -> JobSets
    requires { n ≤ most_jobs }
    ensures { LaterTo before.now n n result.of }
{
    let mut of = [0u32; MOST_JOBS];
    for i in 0..n {
        of[i] = later_than(before, i, n);
    }
    JobSets { of }
}

// For each job the jobs that it follows, and those that follow it.
#[derive(Drop)]
pub struct Marks {
    pub before: [u32; MOST_JOBS],
    pub behind: [u32; MOST_JOBS],
}

// The jobs that each job of a table follows, and those that follow it.
pub fn marks_of(jobs: &Jobs) -> Marks
    requires { count_of jobs.now ≤ most_jobs }
    ensures { Marked (sheet_of jobs.now) result.before result.behind }
{
    let followed = all_followed(jobs);
    let before = followed.of;
    let later = all_later(&before, jobs.count());
    let behind = later.of;
    Marks { before, behind }
}

// ---- marks that others imply

// The earlier jobs of job j that some job that it follows waits for.
fn implied_of(jobs: &Jobs, j: usize) -> u32
    requires { (count_of jobs.now ≤ most_jobs) × (j < most_jobs) }
    ensures { result ≡ implied_marks (sheet_of jobs.now) j }
{
    let others = reached(jobs, followed_by(jobs, j));
    (jobs.earlier(j) & others).below(jobs.count())
}

// For each job the earlier-job marks that another chain of marks already implies.
pub fn implied_marks(jobs: &Jobs) -> JobSets
    requires { count_of jobs.now ≤ most_jobs }
    ensures { ImpliedTo (sheet_of jobs.now) (count_of jobs.now) result.of }
{
    let n = jobs.count();
    let mut of = [0u32; MOST_JOBS];
    for j in 0..n {
        of[j] = implied_of(jobs, j);
    }
    JobSets { of }
}
