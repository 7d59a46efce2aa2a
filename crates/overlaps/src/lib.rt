// Whether jobs that are left must have their modules at the same minute and have no room there.
#![tactic(auto)]

ghost use Rattle.std.specs.Prelude.{◌≡◌, true, ◌<◌, ◌≤◌};
ghost use Rattle.figures.specs.Figures.{most_jobs};
ghost use Rattle.counting.specs.Counting.{only, sum};
ghost use Rattle.bits.specs.Bits.{bit};
ghost use Rattle.schedule.specs.Bounds.{must_run};
ghost use Rattle.tables.specs.Tables.{count_of, modules_of, Fit};
ghost use Rattle.placement.specs.Profile.{ProfileOf};
ghost use Rattle.overlaps.specs.Overlaps.{must_hold, Overlapping};

use bits::Set;
use tables::{Jobs, Part, Prepared};

// The modules of a job that must have them at minute m, as it starts from minute `first` on and keeps them for so long, and starts so early
// that its chain ends by the target; 0 where it need not.
fn must_hold(need: u16, kept: u16, first: u32, tail: u32, target: u16, m: u16) -> u16
    ensures { result ≡ only (must_run first tail target m kept) need }
{
    if (target as u64) <= (m as u64) + (tail as u64) {
        if (m as u64) < (first as u64) + (kept as u64) {
            return need;
        }
    }
    0
}

// The modules that the jobs of the set must hold at minute m.
fn all_hold(jobs: &Jobs, prepared: &Prepared, set: u32, l: u16, target: u16, m: u16) -> u16
    requires { Fit jobs.now }
    ensures { result ≡ sum (count_of jobs.now)
        (λ k. only (bit set k) (must_hold jobs.now prepared.now l target m k)) }
{
    let mut total: u16 = 0;
    for k in set.below(jobs.count()).members() {
        total += must_hold(
            jobs.need(k),
            jobs.kept(k),
            heads::first_start(prepared, l, k),
            prepared.tails[k],
            target,
            m,
        );
    }
    total
}

// Whether the unplaced jobs have no room at minute m beside the placed jobs that still hold theirs. By minute l `gone` of the placed jobs
// have given theirs back, and `free` modules are free then.
fn no_room_at(
    jobs: &Jobs,
    prepared: &Prepared,
    part: &Part,
    gone: usize,
    free: u16,
    l: u16,
    target: u16,
    m: u16,
) -> bool
    requires { (Fit jobs.now) × ((ProfileOf part.now gone free (modules_of jobs.now) l) × (l ≤ m)) }
    ensures { result ≡ true → Overlapping jobs.now prepared.now part.now l target }
{
    let ended = placement::advance(part, gone, free, jobs.modules(), m);
    ended.free < all_hold(jobs, prepared, part.unplaced, l, target, m)
}

// Whether that is so at the last minute at which job k can start, where it has its modules then wherever it starts.
fn no_room_for(
    jobs: &Jobs,
    prepared: &Prepared,
    part: &Part,
    gone: usize,
    free: u16,
    l: u16,
    target: u16,
    k: usize,
) -> bool
    requires { (Fit jobs.now) × ((ProfileOf part.now gone free (modules_of jobs.now) l) × (k < most_jobs)) }
    ensures { result ≡ true → Overlapping jobs.now prepared.now part.now l target }
{
    let tail = prepared.tails[k];
    if (target as u32) < tail {
        return false;
    }
    let m = target - (tail as u16);
    if m < l {
        return false;
    }
    let first = heads::first_start(prepared, l, k);
    if (first as u64) + (jobs.kept(k) as u64) <= (m as u64) {
        return false;
    }
    no_room_at(jobs, prepared, part, gone, free, l, target, m)
}

// Whether unplaced jobs must have their modules at the same minute, between minute l and the target, and have no room there.
pub fn overlapping(
    jobs: &Jobs,
    prepared: &Prepared,
    part: &Part,
    gone: usize,
    free: u16,
    l: u16,
    target: u16,
) -> bool
    requires { (Fit jobs.now) × (ProfileOf part.now gone free (modules_of jobs.now) l) }
    ensures { result ≡ true → Overlapping jobs.now prepared.now part.now l target }
{
    for k in part.unplaced.below(jobs.count()).members() {
        if no_room_for(jobs, prepared, part, gone, free, l, target, k) {
            return true;
        }
    }
    false
}
