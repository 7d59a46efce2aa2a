// Whether the modules have too few minutes until all must be given back: from the next start on, or from a job's head on.
#![tactic(auto)]

ghost use Rattle.std.specs.Prelude.{◌≡◌, true, ◌+◌, ◌-◌, ◌*◌, ◌<◌, ◌≤◌};
ghost use Rattle.figures.specs.Figures.{most_jobs, most_modules};
ghost use Rattle.counting.specs.Counting.{only, sum};
ghost use Rattle.bits.specs.Bits.{bit};
ghost use Rattle.schedule.specs.Bounds.{minutes_behind};
ghost use Rattle.tables.specs.Tables.{modules_of, count_of, changeover_of, Fit};
ghost use Rattle.placement.specs.Profile.{held_since};
ghost use Rattle.areas.specs.Areas.{most_left, HeldAfter, HeldLater, late_work, TooLate};

use bits::Set;
use figures::NO_MINUTE;
use tables::{Jobs, Part, Prepared};

// ---- from the next start on

// The module-minutes that a job which holds `held` modules until minute `until` still takes from minute l on.
fn stretch(until: u16, held: u16, l: u16) -> u32
    ensures { result ≡ held * (until - l) }
{
    if until <= l {
        return 0;
    }
    counting::times(held, until - l)
}

// The module-minutes that are held from minute l on.
fn held_after(part: &Part, l: u16) -> u32
    requires { HeldAfter part.now l }
    ensures { result ≡ held_since part.now l }
{
    let count = part.placed;
    let mut total: u32 = 0;
    for i in part.gone..count {
        total += stretch(part.until[i], part.held[i], l);
    }
    total
}

// Whether the modules cannot do by minute `close`, when all are given back, what is gone at minute l, what is still held and what is left.
pub fn crowded(part: &Part, modules: u16, l: u16, close: u16) -> bool
    requires { (HeldAfter part.now l) × ((part.now.left ≤ most_left) × (modules ≤ most_modules)) }
    ensures { result ≡ true → modules * close
        < modules * l + (held_since part.now l + part.now.left) }
{
    let m = modules as u32;
    m * (close as u32) < m * (l as u32) + (held_after(part, l) + part.left)
}

// ---- from a job's head on

// For how long a job that starts from minute `first` on keeps its modules behind minute a, at least.
fn late_minutes(kept: u16, first: u32, a: u16) -> u16
    ensures { result ≡ minutes_behind first a kept }
{
    if (a as u32) <= first {
        return kept;
    }
    let before = a - (first as u16);
    if kept <= before {
        return 0;
    }
    kept - before
}

// The module-minutes that the jobs of the set, which start from minute l on, keep behind minute a.
fn late_work(jobs: &Jobs, prepared: &Prepared, set: u32, l: u16, a: u16) -> u32
    requires { Fit jobs.now }
    ensures { result ≡ sum (count_of jobs.now)
        (λ k. only (bit set k) (late_work jobs.now prepared.now l a k)) }
{
    let mut total: u32 = 0;
    for k in set.below(jobs.count()).members() {
        let first = heads::first_start(prepared, l, k);
        let behind = late_minutes(jobs.kept(k), first, a);
        total += counting::times(jobs.need(k), behind);
    }
    total
}

// Whether the modules cannot do from minute a up to minute `close` what is held and what is left behind minute a.
fn late_from(jobs: &Jobs, prepared: &Prepared, part: &Part, l: u16, a: u16, close: u16) -> bool
    requires { (Fit jobs.now) × ((HeldAfter part.now a) × (a ≤ close)) }
    ensures { result ≡ true → modules_of jobs.now * (close - a)
        < sum (count_of jobs.now)
        (λ k. only (bit part.now.unplaced k) (late_work jobs.now prepared.now l a k))
        + held_since part.now a }
{
    let room = counting::times(jobs.modules(), close - a);
    let work = late_work(jobs, prepared, part.unplaced, l, a);
    room < work + held_after(part, a)
}

// Whether job k and the chain that begins with it, from its head on, last beyond the target, or the modules have too few minutes from its
// head on up to minute `close`.
fn late_job(
    jobs: &Jobs,
    prepared: &Prepared,
    part: &Part,
    target: u16,
    close: u16,
    k: usize,
) -> bool
    requires { ((Fit jobs.now) × (HeldLater part.now)) × ((k < count_of jobs.now) × (target ≤ close)) }
    ensures { result ≡ true → TooLate jobs.now prepared.now part.now target close }
{
    let head = prepared.heads[k];
    if (target as u64) < (head as u64) + (prepared.tails[k] as u64) {
        return true;
    }
    let a = head as u16;
    let last = part.last;
    if a <= last {
        return false;
    }
    late_from(jobs, prepared, part, last, a, close)
}

// Whether that is so of some unplaced job.
pub fn too_late(jobs: &Jobs, prepared: &Prepared, part: &Part, target: u16) -> bool
    requires { (Fit jobs.now) × (HeldLater part.now) }
    ensures { result ≡ true → TooLate jobs.now prepared.now part.now target
        (target + changeover_of jobs.now) }
{
    let close = jobs.closing(target);
    if close == NO_MINUTE {
        return false;
    }
    for k in part.unplaced.below(jobs.count()).members() {
        if late_job(jobs, prepared, part, target, close, k) {
            return true;
        }
    }
    false
}
