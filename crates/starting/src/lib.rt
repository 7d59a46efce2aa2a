// Of the jobs that may come next: one that starts first and can run beside no other, and those that start before one can have ended and
// rested.
#![tactic(auto)]

ghost use Rattle.std.specs.Prelude.{◌≡◌, true, cond, ◌+◌, ◌<◌, ◌≤◌, min, ltb, get_or};
ghost use Rattle.figures.specs.Figures.{most_jobs};
ghost use Rattle.bits.specs.Bits.{with_bit};
ghost use Rattle.tables.specs.Tables.{kept_at, count_of};
ghost use Rattle.starting.specs.Starting.{Alone, EndOfOne, AllEarly};

use bits::Set;
use figures::MOST_JOBS;
use relations::ROW;
use tables::{Jobs, Prepared};

// Whether job i, of the set, starts first and can run beside no other job of it.
fn alone_at(prepared: &Prepared, start: u16, least: u16, set: u32, i: usize) -> bool
    requires { i < most_jobs }
    ensures { result ≡ true → (start ≡ least) × Alone prepared.now.related set i }
{
    if start != least {
        return false;
    }
    set & prepared.related[i * ROW + 2] == 0
}

// A job of the set that starts first and can run beside no other, or `count` where there is none.
pub fn first_alone(
    prepared: &Prepared,
    at: &[u16; MOST_JOBS],
    least: u16,
    set: u32,
    count: usize,
) -> usize
    requires { count ≤ most_jobs }
    ensures { result < count → (get_or at.now result 0 ≡ least) × Alone prepared.now.related set result }
{
    for i in set.below(count).members() {
        if alone_at(prepared, at[i], least, set, i) {
            return i;
        }
    }
    count
}

// The earlier of a minute and the one by which job j, which starts at `start`, has ended and rested.
fn or_ends(jobs: &Jobs, r: u32, start: u16, j: usize) -> u32
    requires { j < most_jobs }
    ensures { result ≡ min r (start + kept_at jobs.now j) }
{
    let end = (start as u32) + (jobs.kept(j) as u32);
    if r <= end { r } else { end }
}

// No end: no job ends later.
const NO_END: u32 = 131070;

// The first minute by which one of the set's jobs can have ended and rested.
pub fn first_end(jobs: &Jobs, at: &[u16; MOST_JOBS], set: u32) -> u32
    requires { count_of jobs.now ≤ most_jobs }
    ensures { EndOfOne jobs.now at.now result }
{
    let mut r: u32 = NO_END;
    for j in set.below(jobs.count()).members() {
        r = or_ends(jobs, r, at[j], j);
    }
    r
}

// The set r with job j, where it starts before minute `end`.
fn with_early(r: u32, start: u16, end: u32, j: usize) -> u32
    requires { j < most_jobs }
    ensures { result ≡ cond (ltb start end) (with_bit r j) r }
{
    if (start as u32) < end {
        return r.with(j);
    }
    r
}

// The jobs of the set that start before minute `end`.
pub fn early(at: &[u16; MOST_JOBS], end: u32, set: u32, count: usize) -> u32
    requires { count ≤ most_jobs }
    ensures { AllEarly at.now end set count result }
{
    let mut r: u32 = 0;
    for j in set.below(count).members() {
        r = with_early(r, at[j], end, j);
    }
    r
}
