// What the sums of the minutes for which jobs keep their modules say: the times at which a plan can end, and the bound by modules.
#![tactic(auto)]

ghost use Rattle.std.specs.Prelude.{◌≡◌, true, ◌+◌, ◌-◌, ◌*◌, ◌<◌, ◌≤◌, leb, length};
ghost use Rattle.std.specs.Int.{◌∣◌};
ghost use Rattle.counting.specs.Counting.{only};
ghost use Rattle.figures.specs.Figures.{most_jobs};
ghost use Rattle.tables.specs.Tables.{kept_at, most_kept, count_of, Fit};
ghost use Rattle.choices.specs.Choices.{longest};
ghost use Rattle.sums.specs.Sums.{longest_pair, Rounded, AllHere, Step, RoundedToSum};
ghost use Rattle.sums.specs.Serving.{Running, Narrow, served_from, most_served, Unserved};

use bits::Set;
use choices::{longest_fit, subset_sums};
use tables::{Jobs, Part};

// ---- the largest sum of two that fits

// What the sum a and one of the others give together, not above x.
fn paired(high: &[u16], highs: usize, a: u16, x: u16) -> u16
    requires { highs ≤ length high.now }
    ensures { result ≡ only (leb a x) (a + longest high.now highs (x - a)) }
{
    if a <= x {
        return a + longest_fit(high, highs, x - a);
    }
    0
}

// The largest that two of the sums, one of each kind, give together, not above x.
fn longest_pair(low: &[u16], lows: usize, high: &[u16], highs: usize, x: u16) -> u16
    requires { (lows ≤ length low.now) × (highs ≤ length high.now) }
    ensures { result ≡ longest_pair low.now lows high.now highs x }
{
    let mut r: u16 = 0;
    for i in 0..lows {
        r = r.max(paired(high, highs, low[i], x));
    }
    r
}

// Two halves of the jobs: jobs 0 to 9, and jobs 10 to 19.
const LOW_JOBS: u32 = 1023;

const HIGH_JOBS: u32 = 1047552;

// The sums of all choices from ten jobs.
const HALF_SUMS: usize = 1024;

// The largest sum of all jobs that is not above the target, or the target where the sums have no room.
fn rounded_to_sum(jobs: &Jobs, target: u16) -> u16
    requires { Fit jobs.now }
    ensures { RoundedToSum jobs.now target result }
{
    let mut low = [0u16; HALF_SUMS];
    let lows = subset_sums(&mut low, jobs, LOW_JOBS);
    let mut high = [0u16; HALF_SUMS];
    let highs = subset_sums(&mut high, jobs, HIGH_JOBS);
    if lows == 0 {
        return target;
    }
    if highs == 0 {
        return target;
    }
    longest_pair(&low, lows, &high, highs, target)
}

// ---- targets between two minutes at which an order can end

// The greatest common divisor: that it divides both is all that is used.
fn divisor(a: u16, b: u16) -> u16
    ensures { (result ∣ a) × (result ∣ b) }
{
    let mut x = a;
    let mut y = b;
    while y != 0 {
        let left = x % y;
        x = y;
        y = left;
    }
    x
}

// A number that divides the changeover, and the minutes and the arrivals of all jobs.
fn step_of(jobs: &Jobs) -> u16
    requires { count_of jobs.now ≤ most_jobs }
    ensures { Step jobs.now (count_of jobs.now) result }
{
    let count = jobs.count();
    let mut step = jobs.changeover();
    for i in 0..count {
        step = divisor(step, jobs.minutes(i));
        step = divisor(step, jobs.arrival(i));
    }
    step
}

// The last minute up to the target at which a plan can end by that step.
fn rounded_to_step(jobs: &Jobs, target: u16) -> u16
    requires { Fit jobs.now }
    ensures { Rounded jobs.now target result }
{
    let step = step_of(jobs);
    if step == 0 {
        return target;
    }
    target / step * step
}

// Whether all jobs are here from minute 0 on.
fn all_here(jobs: &Jobs) -> bool
    requires { count_of jobs.now ≤ most_jobs }
    ensures { result ≡ true → AllHere jobs.now (count_of jobs.now) }
{
    let count = jobs.count();
    for i in 0..count {
        if jobs.arrival(i) != 0 {
            return false;
        }
    }
    true
}

// The target, or an earlier minute where no order ends between the two: where all jobs are here and modules need no rest ends are sums of
// minutes, and else multiples of what divides the changeover, all minutes and all arrivals.
pub fn rounded(jobs: &Jobs, target: u16) -> u16
    requires { Fit jobs.now }
    ensures { Rounded jobs.now target result }
{
    if jobs.changeover() != 0 {
        return rounded_to_step(jobs, target);
    }
    if all_here(jobs) {
        return rounded_to_sum(jobs, target);
    }
    rounded_to_step(jobs, target)
}

// ---- the bound by modules

// The jobs of a set whose sums are made for this bound, at most, and the sums of all choices from so many.
const SERVED_JOBS: u32 = 8;

const SERVED_SUMS: usize = 256;

// The largest of the sums that fits between minute t and minute `close`.
fn reach_from(at: &[u16], count: usize, t: u16, close: u16) -> u16
    requires { count ≤ length at.now }
    ensures { result ≡ longest at.now count (close - t) }
{
    if close <= t {
        return 0;
    }
    longest_fit(at, count, close - t)
}

// What the modules of the placed jobs but the first `gone` serve, each from when it is given back, up to minute `close`.
fn served_behind(at: &[u16], count: usize, part: &Part, gone: usize, close: u16) -> u32
    requires { (Narrow part.now gone) × (count ≤ length at.now) }
    ensures { (result ≡ served_from (longest at.now count) part.now gone close) × (result ≤ most_served) }
{
    let placed = part.placed;
    let mut total: u32 = 0;
    for i in gone..placed {
        let reach = reach_from(at, count, part.until[i], close);
        total += counting::times(part.held[i], reach);
    }
    total
}

// Whether some of the module-minutes of the unplaced jobs cannot be served by minute `close`, when all modules are given back. `gone` of the
// placed jobs have given theirs back by minute `least`, and `free` modules are free then. More than SERVED_JOBS unplaced jobs are not looked
// at.
pub fn unserved(jobs: &Jobs, part: &Part, gone: usize, free: u16, least: u16, close: u16) -> bool
    requires { (Fit jobs.now) × (Running jobs.now part.now gone free least) }
    ensures { result ≡ true → Unserved jobs.now part.now least close }
{
    let set = part.unplaced;
    if set.size() > SERVED_JOBS {
        return false;
    }
    let mut at = [0u16; SERVED_SUMS];
    let count = subset_sums(&mut at, jobs, set);
    if count == 0 {
        return false;
    }
    let behind = served_behind(&at, count, part, gone, close);
    let at_once = counting::times(free, reach_from(&at, count, least, close));
    behind + at_once < part.left
}
