// Which of the jobs that may come next need not be tried, and which are to be tried.
#![tactic(auto)]

ghost use Rattle.std.specs.Prelude.{◌≡◌, ◌⊎◌, true, false, cond, ℕ, ◌+◌, ◌<◌, ◌≤◌, min, ltb, get_or};
ghost use Rattle.figures.specs.Figures.{most_jobs};
ghost use Rattle.bits.specs.Bits.{bit, with_bit};
ghost use Rattle.tables.specs.Tables.{kept_at, count_of};
ghost use Rattle.relations.specs.Relations.{row_at};
ghost use Rattle.branching.specs.Branching.{settled_now, Passing, AlikeTried, Swapped, AllAwaited, AllArrived, EndsInBlock, Blocked, PassedOver};
ghost use Rattle.branching.specs.Branching.{ToTry, Trying};

use bits::Set;
use figures::{MOST_JOBS, NO_MINUTE};
use relations::ROW;
use starting::{early, first_alone, first_end};
use tables::{Jobs, Part, Prepared};

// ---- jobs that were settled

// The jobs settled at the last start, after a choice at `start` before which these were tried.
pub fn settled_now(same: u32, tried: u32, start: u16, last: u16) -> u32
    ensures { result ≡ settled_now same tried start last }
{
    if start != last {
        return tried;
    }
    same | tried
}

// ---- jobs that need not be tried

// Whether a job that is alike was tried.
fn alike_tried(prepared: &Prepared, tried: u32, j: usize) -> bool
    requires { j < most_jobs }
    ensures { result ≡ true → AlikeTried prepared.now.related tried j }
{
    tried & prepared.related[j * ROW] != 0
}

// All numbers below 32 as a set.
const ALL: u32 = 4294967295;

// The jobs that may be swapped with job j and are placed.
fn to_swap(prepared: &Prepared, part: &Part, j: usize) -> u32
    requires { j < most_jobs }
    ensures { (i : ℕ) → bit result i ≡ true → bit (row_at prepared.now.related j).swapping i ≡ true }
{
    prepared.related[j * ROW + 1] & (ALL - part.unplaced)
}

// Whether job i, which ends at `end`, is placed, and job j, which would start at `start`, was settled when i was chosen and starts as the
// modules of i have rested.
fn starts_behind(
    end: u16,
    rest: u16,
    settled: u32,
    unplaced: u32,
    start: u16,
    i: usize,
    j: usize,
) -> bool
    requires { (i < most_jobs) × (j < most_jobs) }
    ensures { result ≡ true → (end + rest ≡ start) × ((bit unplaced i ≡ false) × (bit settled j ≡ true)) }
{
    if (end as u32) + (rest as u32) != (start as u32) {
        return false;
    }
    if unplaced.has(i) {
        return false;
    }
    settled.has(j)
}

// Whether job j would start behind a placed job that may be swapped with it and in whose place it was settled.
fn swapped(
    jobs: &Jobs,
    prepared: &Prepared,
    part: &Part,
    settled: &[u32; MOST_JOBS],
    start: u16,
    j: usize,
) -> bool
    requires { (count_of jobs.now ≤ most_jobs) × (j < most_jobs) }
    ensures { result ≡ true → Swapped jobs.now prepared.now.related part.now
        settled.now start j }
{
    let rest = jobs.changeover();
    let unplaced = part.unplaced;
    for i in to_swap(prepared, part, j).below(jobs.count()).members() {
        if starts_behind(part.ends[i], rest, settled[i], unplaced, start, i, j) {
            return true;
        }
    }
    false
}

// What a block must leave to the unplaced jobs: the jobs that some of them wait for, and the last of their arrivals.
#[derive(Drop)]
pub struct Behind {
    pub awaited: u32,
    pub arrived: u16,
}

fn left_behind(jobs: &Jobs, part: &Part) -> Behind
    requires { count_of jobs.now ≤ most_jobs }
    ensures { (AllAwaited jobs.now part.now.unplaced result.awaited)
        × (AllArrived jobs.now part.now.unplaced result.arrived) }
{
    let mut awaited: u32 = 0;
    let mut arrived: u16 = 0;
    for x in part.unplaced.below(jobs.count()).members() {
        awaited = awaited | jobs.earlier(x);
        arrived = arrived.max(jobs.arrival(x));
    }
    Behind { awaited, arrived }
}

// Whether a block goes on with a job, or begins with it: it is not awaited, and for a first job all others have ended and rested and all
// unplaced jobs have arrived by its start and it was chosen when another was settled.
fn block_with(found: bool, waited: bool, settled: bool, latest: u16, end: u16, minutes: u16) -> bool
    ensures { result ≡ true
        → (waited ≡ false) × ((found ≡ true) ⊎ ((settled ≡ true) × (latest + minutes ≤ end))) }
{
    if waited {
        return false;
    }
    if found {
        return true;
    }
    if !settled {
        return false;
    }
    (latest as u32) + (minutes as u32) <= (end as u32)
}

// Whether the last of the placed jobs are a block, and all have ended and rested by minute `start`.
fn ends_in_block(
    jobs: &Jobs,
    part: &Part,
    settled: &[u32; MOST_JOBS],
    behind: Behind,
    start: u16,
    j: usize,
) -> bool
    requires { Passing jobs.now part.now j }
    ensures { result ≡ true → EndsInBlock jobs.now part.now settled.now behind start j }
{
    let placed = part.placed;
    let rest = jobs.changeover();
    let mut found = false;
    let mut latest = behind.arrived;
    for m in 0..placed {
        let a = part.order[m] as usize;
        let end = part.ends[a];
        let waited = behind.awaited.has(a);
        let j_settled = settled[a].has(j);
        found = block_with(found, waited, j_settled, latest, end, jobs.minutes(a));
        latest = latest.max(end + rest);
    }
    if !found {
        return false;
    }
    latest <= start
}

// Whether job j, which would start at `start`, would come behind a block at whose beginning it was settled.
fn blocked(jobs: &Jobs, part: &Part, settled: &[u32; MOST_JOBS], start: u16, j: usize) -> bool
    requires { Passing jobs.now part.now j }
    ensures { result ≡ true → Blocked jobs.now part.now settled.now start j }
{
    let placed = part.placed;
    if placed == 0 {
        return false;
    }
    if start < part.until[placed - 1] {
        return false;
    }
    ends_in_block(jobs, part, settled, left_behind(jobs, part), start, j)
}

// Whether job j, which would start at `start`, need not be tried.
pub fn passed_over(
    jobs: &Jobs,
    prepared: &Prepared,
    part: &Part,
    settled: &[u32; MOST_JOBS],
    same: u32,
    tried: u32,
    start: u16,
    j: usize,
) -> bool
    requires { Passing jobs.now part.now j }
    ensures { result ≡ true → PassedOver jobs.now prepared.now.related part.now
        settled.now same tried start j }
{
    if alike_tried(prepared, tried, j) {
        return true;
    }
    if start == part.last {
        if same.has(j) {
            return true;
        }
    }
    if swapped(jobs, prepared, part, settled, start, j) {
        return true;
    }
    blocked(jobs, part, settled, start, j)
}

// ---- the jobs to be tried

// The jobs to be tried: one of those that start first, where it can run beside no other; or all that start before the first minute by
// which one can have ended and rested.
pub fn to_try(jobs: &Jobs, prepared: &Prepared, at: &[u16; MOST_JOBS], least: u16, set: u32) -> u32
    requires { Trying jobs.now at.now least set }
    ensures { ToTry jobs.now prepared.now.related at.now set result }
{
    if least == NO_MINUTE {
        return set;
    }
    let count = jobs.count();
    let i = first_alone(prepared, at, least, set, count);
    if i < count {
        return 0u32.with(i);
    }
    early(at, first_end(jobs, at, set), set, count)
}
