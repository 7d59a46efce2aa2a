// Whether no order that goes on from a part-plan can end by a target.
#![tactic(auto)]

ghost use Rattle.std.specs.Prelude.{◌≡◌, true, ℕ, ◌+◌, ◌<◌, ◌≤◌, length, get_or};
ghost use Rattle.figures.specs.Figures.{most_jobs, no_minute};
ghost use Rattle.tables.specs.Tables.{modules_of, count_of, changeover_of, Fit};
ghost use Rattle.placement.specs.Profile.{ProfileOf};
ghost use Rattle.weights.specs.Weights.{Weighted};
ghost use Rattle.values.specs.Values.{Laned};
ghost use Rattle.fitting.specs.Fitting.{slate_size, release_at, OverfullFrom};
ghost use Rattle.bounds.specs.Bounds.{SomeTooLong, TooFew, Hopeless, Bounding};

use bits::Set;
use figures::{MOST_JOBS, NO_MINUTE};
use fitting::Slate;
use tables::{Jobs, Part, Prepared};

// ---- chains

// Whether a job that starts at `start` (NO_MINUTE: it may not come next), and the chain behind it, last until `end`.
fn too_long(start: u16, tail: u32, end: u16) -> bool
    ensures { result ≡ true → (start < no_minute) × (end ≤ start + tail) }
{
    if start == NO_MINUTE {
        return false;
    }
    end as u64 <= (start as u64) + (tail as u64)
}

// Whether that is so of some job of the set.
fn some_too_long(
    prepared: &Prepared,
    at: &[u16; MOST_JOBS],
    set: u32,
    count: usize,
    end: u16,
) -> bool
    requires { count ≤ most_jobs }
    ensures { result ≡ true → SomeTooLong at.now prepared.now.tails count end }
{
    for j in set.below(count).members() {
        if too_long(at[j], prepared.tails[j], end) {
            return true;
        }
    }
    false
}

// ---- the free modules

// Whether the modules that come free from minute l on are too few for the unplaced jobs to end by the target and to give them all back by
// minute `close`: where jobs must overlap, by weights, by lanes or one by one.
fn too_few(jobs: &Jobs, prepared: &Prepared, part: &Part, l: u16, target: u16, close: u16) -> bool
    requires { ((Fit jobs.now) × ((Weighted jobs.now prepared.now.worth prepared.now.most) × (Laned jobs.now prepared.now.lanes)))
        × (ProfileOf part.now part.now.gone part.now.free (modules_of jobs.now) l) }
    ensures { result ≡ true → TooFew jobs.now prepared.now part.now l target close }
{
    let ended = placement::ended_by(jobs, part, l);
    let gone = ended.gone;
    let free = ended.free;
    if overlaps::overlapping(jobs, prepared, part, gone, free, l, target) {
        return true;
    }
    if weights::outweighed(jobs, prepared, part, gone, free, l, close) {
        return true;
    }
    if lanes::overfull(jobs, prepared, part, gone, free, l, close) {
        return true;
    }
    sums::unserved(jobs, part, gone, free, l, close)
}

// ---- all bounds

// Whether no order that goes on from here can end by the target: by the area, by a chain, or because the free modules are too few.
pub fn hopeless(
    jobs: &Jobs,
    prepared: &Prepared,
    part: &Part,
    at: &[u16; MOST_JOBS],
    least: u16,
    target: u16,
) -> bool
    requires { ((Fit jobs.now) × ((Weighted jobs.now prepared.now.worth prepared.now.most) × (Laned jobs.now prepared.now.lanes)))
        × (Bounding jobs.now part.now least) }
    ensures { result ≡ true
        → Hopeless jobs.now prepared.now part.now at.now least target
        (target + changeover_of jobs.now) }
{
    let close = jobs.closing(target);
    if close == NO_MINUTE {
        return false;
    }
    if areas::crowded(part, jobs.modules(), least, close) {
        return true;
    }
    let unplaced = part.unplaced;
    if some_too_long(prepared, at, unplaced, jobs.count(), target + 1) {
        return true;
    }
    too_few(jobs, prepared, part, least, target, close)
}

// ---- lanes fitted to the part-plan

// Whether the jobs that are left have more value than the lanes can serve until all modules are given back, by a table that is made of them on
// the slate.
pub fn overfilled(
    slate: &mut Slate,
    jobs: &Jobs,
    part: &Part,
    at: &[u16; MOST_JOBS],
    least: u16,
    target: u16,
) -> bool
    requires { ((Fit jobs.now) × (length slate.old ≡ slate_size))
        × (((k : ℕ) → k < count_of jobs.now → least ≤ get_or at.now k 0) × (Bounding jobs.now part.now least)) }
    ensures over { result ≡ true
        → OverfullFrom jobs.now part.now (release_at at.now least) least (target + changeover_of jobs.now) }
    ensures size { length slate.new ≡ length slate.old }
{
    let close = jobs.closing(target);
    if close == NO_MINUTE {
        return false;
    }
    let ended = placement::ended_by(jobs, part, least);
    let gone = ended.gone;
    let free = ended.free;
    fitting::overfull(slate, jobs, part, at, gone, free, least, close)
}
