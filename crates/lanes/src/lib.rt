// The bound by lanes: whether the jobs that are left have more value than the lanes that come open can serve until all modules are given back.
#![tactic(auto)]

ghost use Rattle.std.specs.Prelude.{◌≡◌, true, ℕ, ◌-◌, ◌<◌, ◌≤◌};
ghost use Rattle.counting.specs.Counting.{only, sum};
ghost use Rattle.figures.specs.Figures.{most_jobs, most_modules};
ghost use Rattle.bits.specs.Bits.{bit};
ghost use Rattle.tables.specs.Tables.{count_of, modules_of, Fit};
ghost use Rattle.placement.specs.Profile.{ProfileOf};
ghost use Rattle.values.specs.Values.{most_lane_worth, most_at, worth_at, step_of, Laned};
ghost use Rattle.lanes.specs.Lanes.{reach_in, served_on, ReachesTo, Serving, Overfull};

use bits::Set;
use tables::{Jobs, Part, Prepared};

// The minutes of a step.
fn step_of(prepared: &Prepared) -> u32
    ensures { result ≡ step_of prepared.now.lanes }
{
    prepared.lanes[values::STEP_AT]
}

// The most value that a lane can serve from minute t up to minute `close`.
fn reach_from(prepared: &Prepared, t: u16, close: u16) -> u32
    requires { (ReachesTo prepared.now.lanes close) × (t ≤ close) }
    ensures { result ≡ reach_in prepared.now.lanes (close - t) }
{
    prepared.lanes[values::steps(close - t, step_of(prepared))]
}

// How many lanes are open on x free modules.
fn lanes_on(prepared: &Prepared, x: u16) -> u32
    requires { x ≤ most_modules }
    ensures { result ≡ most_at prepared.now.lanes x }
{
    prepared.lanes[values::MOST_AT + (x as usize)]
}

// What the lanes serve from minute `least` up to minute `close`.
fn served_on(
    jobs: &Jobs,
    prepared: &Prepared,
    part: &Part,
    gone: usize,
    free: u16,
    least: u16,
    close: u16,
) -> u32
    requires { (ReachesTo prepared.now.lanes close)
        × (Serving (most_at prepared.now.lanes) (reach_in prepared.now.lanes) part.now gone free
        (modules_of jobs.now) least close) }
    ensures { result ≡ served_on (most_at prepared.now.lanes) (reach_in prepared.now.lanes)
        (modules_of jobs.now) part.now least close }
{
    let placed = part.placed;
    let mut total: u32 = 0;
    let mut at = least;
    let mut reach = reach_from(prepared, least, close);
    let mut f = free;
    for i in gone..placed {
        let to = weights::next_end(at, part.until[i], close);
        let next = reach_from(prepared, to, close);
        total += lanes_on(prepared, f) * (reach - next);
        at = to;
        reach = next;
        f += part.held[i];
    }
    total + lanes_on(prepared, f) * reach
}

// The value of job k on all its lanes.
fn worth_of(prepared: &Prepared, k: usize) -> u32
    requires { k < most_jobs }
    ensures { result ≡ worth_at prepared.now.lanes k }
{
    prepared.lanes[values::WORTH_AT + k]
}

// The value of the unplaced jobs on all their lanes.
fn set_worth(jobs: &Jobs, prepared: &Prepared, part: &Part) -> u32
    requires { (count_of jobs.now ≤ most_jobs)
        × ((k : ℕ) → k < most_jobs → worth_at prepared.now.lanes k ≤ most_lane_worth) }
    ensures { result ≡ sum (count_of jobs.now)
        (λ k. only (bit part.now.unplaced k) (worth_at prepared.now.lanes k)) }
{
    let mut total: u32 = 0;
    for k in part.unplaced.below(jobs.count()).members() {
        total += worth_of(prepared, k);
    }
    total
}

// Whether the unplaced jobs have more value than the lanes can serve between minute `least` and minute `close`, by which all modules are
// given back. `gone` of the placed jobs are known to have given theirs back by then, and the others leave `free` modules.
pub fn overfull(
    jobs: &Jobs,
    prepared: &Prepared,
    part: &Part,
    gone: usize,
    free: u16,
    least: u16,
    close: u16,
) -> bool
    requires { ((Fit jobs.now) × (Laned jobs.now prepared.now.lanes))
        × (ProfileOf part.now gone free (modules_of jobs.now) least) }
    ensures { result ≡ true → Overfull jobs.now part.now least close }
{
    if close < least {
        return false;
    }
    if values::steps(close, step_of(prepared)) >= values::STEPS {
        return false;
    }
    served_on(jobs, prepared, part, gone, free, least, close) < set_worth(jobs, prepared, part)
}
