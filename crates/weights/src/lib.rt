// Weights of jobs, and the bound by weights: what the jobs that are left weigh against what the free modules can hold, minute by minute.
#![tactic(auto)]

ghost use Rattle.std.specs.Prelude.{◌≡◌, true, ℕ, ◌+◌, ◌*◌, ◌<◌, ◌≤◌, min, max, length, get_or, replicate};
ghost use Rattle.counting.specs.Counting.{only, sum};
ghost use Rattle.figures.specs.Figures.{most_jobs, most_modules};
ghost use Rattle.bits.specs.Bits.{bit};
ghost use Rattle.tables.specs.Tables.{need_at, count_of, modules_of, Fit};
ghost use Rattle.placement.specs.Profile.{ProfileOf};
ghost use Rattle.weights.specs.Weights.{weightings, widths, most_size, heaviest, few_weight, all_worth, most_room, weight_in, most_with, Put};
ghost use Rattle.weights.specs.Weights.{MostOf, WeightedTo, Weighted, WorthSmall, MostSmall, room_for, Outweighed};

use bits::Set;
use figures::{MOST_JOBS, MOST_MODULES};
use tables::{Jobs, Part, Prepared};

// How many weightings there are.
pub const WEIGHTINGS: usize = 5;

// Numbers of modules, from 0 to the most that a cabinet has.
pub const WIDTHS: usize = MOST_MODULES + 1;

// The weightings side by side: place k * WEIGHTINGS + q of `worth` is job k's weight times the minutes for which it
// keeps its modules, place x * WEIGHTINGS + q of `most` the most that can stand on x modules.
#[derive(Drop)]
pub struct Weights {
    pub worth: [u32; MOST_JOBS * WEIGHTINGS],
    pub most: [u16; WIDTHS * WEIGHTINGS],
}

// The most that can stand on each number of modules.
#[derive(Drop)]
pub struct Most {
    pub at: [u16; WIDTHS],
}

// A total in each weighting.
#[derive(Drop)]
struct Totals {
    of: [u32; WEIGHTINGS],
}

// ---- the weightings of a sheet

// The weight of job k in weighting q.
pub fn weight_of(jobs: &Jobs, k: usize, q: usize) -> u16
    requires { (Fit jobs.now) × ((k < count_of jobs.now) × (q < weightings)) }
    ensures { result ≡ weight_in (modules_of jobs.now) q (need_at jobs.now k) }
{
    let m = jobs.modules() as usize;
    let a = (q + 2) * (jobs.need(k) as usize);
    if a % m == 0 {
        return ((q + 1) * (a / m)) as u16;
    }
    ((q + 2) * (a / m)) as u16
}

// The most that can stand on x modules with one job more.
fn most_with(old: &[u16; WIDTHS], width: usize, weight: u16, x: usize) -> u16
    requires { ((p : ℕ) → get_or old.now p 0 ≤ few_weight) × ((weight ≤ heaviest) × (x < widths)) }
    ensures { result ≡ most_with old.now width weight x }
{
    let without = old[x];
    if x < width {
        return without;
    }
    let with = weight + old[x - width];
    if with < without {
        return without;
    }
    with
}

// The same on each number of modules.
fn with_job(table: Most, width: u16, weight: u16, modules: u16) -> Most
    requires { ((p : ℕ) → get_or table.at p 0 ≤ few_weight) × ((weight ≤ heaviest) × (modules ≤ most_modules)) }
    ensures { Put (λ x. x) (replicate widths 0) result.at (modules + 1) (most_with table.at width weight) }
{
    let mut next = [0u16; WIDTHS];
    for x in 0..=(modules as usize) {
        next[x] = most_with(&table.at, width as usize, weight, x);
    }
    Most { at: next }
}

// The most of the jobs that can stand on each number of modules, in weighting q.
pub fn most_of(jobs: &Jobs, q: usize) -> Most
    requires { (Fit jobs.now) × (q < weightings) }
    ensures { MostOf jobs.now (count_of jobs.now) q result.at }
{
    let count = jobs.count();
    let modules = jobs.modules();
    let mut table = Most { at: [0u16; WIDTHS] };
    for k in 0..count {
        let weight = weight_of(jobs, k, q);
        table = with_job(table, jobs.need(k), weight, modules);
    }
    table
}

// The weightings with the table put in as the q-th.
fn put_most(all: Weights, q: usize, table: &[u16; WIDTHS]) -> Weights
    requires { (q < weightings) × (length all.most ≡ most_size) }
    ensures { (Put (λ x. x * weightings + q) all.most result.most widths (λ x. get_or table.now x 0))
        × (result.worth ≡ all.worth) }
{
    let mut next = all;
    for x in 0..WIDTHS {
        next.most[x * WEIGHTINGS + q] = table[x];
    }
    next
}

// The weightings with the q-th put in.
fn with_weighting(all: Weights, jobs: &Jobs, q: usize) -> Weights
    requires { (Fit jobs.now) × ((q < weightings) × (WeightedTo jobs.now all.worth all.most q)) }
    ensures { WeightedTo jobs.now result.worth result.most (q + 1) }
{
    let count = jobs.count();
    let mut next = all;
    for k in 0..count {
        let weight = weight_of(jobs, k, q);
        next.worth[k * WEIGHTINGS + q] = counting::times(jobs.kept(k), weight);
    }
    let table = most_of(jobs, q);
    put_most(next, q, &table.at)
}

// The weightings of a sheet.
pub fn weightings(jobs: &Jobs) -> Weights
    requires { Fit jobs.now }
    ensures { Weighted jobs.now result.worth result.most }
{
    let mut all = Weights {
        worth: [0u32; MOST_JOBS * WEIGHTINGS],
        most: [0u16; WIDTHS * WEIGHTINGS],
    };
    for q in 0..WEIGHTINGS {
        all = with_weighting(all, jobs, q);
    }
    all
}

// ---- the test by weights

// What weighs so much in each weighting, and job k.
fn with_worth(weight: Totals, prepared: &Prepared, k: usize) -> Totals
    requires { (k < most_jobs)
        × ((q : ℕ) → q < weightings → get_or weight.of q 0 + get_or prepared.now.worth (k * weightings + q) 0 ≤ all_worth) }
    ensures { (q : ℕ) → q < weightings
        → get_or result.of q 0 ≡ get_or weight.of q 0 + get_or prepared.now.worth (k * weightings + q) 0 }
{
    let mut next = [0u32; WEIGHTINGS];
    for q in 0..WEIGHTINGS {
        next[q] = weight.of[q] + prepared.worth[k * WEIGHTINGS + q];
    }
    Totals { of: next }
}

// What the unplaced jobs weigh in each weighting.
fn set_worth(jobs: &Jobs, prepared: &Prepared, part: &Part) -> Totals
    requires { (count_of jobs.now ≤ most_jobs) × (WorthSmall prepared.now.worth) }
    ensures { (q : ℕ) → q < weightings → get_or result.of q 0 ≡ sum (count_of jobs.now)
        (λ k. only (bit part.now.unplaced k) (get_or prepared.now.worth (k * weightings + q) 0)) }
{
    let mut weight = Totals {
        of: [0u32; WEIGHTINGS],
    };
    for k in part.unplaced.below(jobs.count()).members() {
        weight = with_worth(weight, prepared, k);
    }
    weight
}

// The next minute from `at` on at which a job gives back its modules or minute `close` is reached.
pub fn next_end(at: u16, until: u16, close: u16) -> u16
    ensures { result ≡ max at (min until close) }
{
    at.max(until.min(close))
}

// The room in each weighting, with what can stand on x modules for so many minutes more.
fn with_room(room: Totals, prepared: &Prepared, x: u16, minutes: u16) -> Totals
    requires { ((x < widths) × (MostSmall prepared.now.most)) × ((q : ℕ) → q < weightings
        → get_or room.of q 0 + get_or prepared.now.most (x * weightings + q) 0 * minutes ≤ most_room) }
    ensures { (q : ℕ) → q < weightings
        → get_or result.of q 0 ≡ get_or room.of q 0 + get_or prepared.now.most (x * weightings + q) 0 * minutes }
{
    let row = (x as usize) * WEIGHTINGS;
    let mut next = [0u32; WEIGHTINGS];
    for q in 0..WEIGHTINGS {
        let most = prepared.most[row + q] as u16;
        next[q] = room.of[q] + counting::times(most, minutes);
    }
    Totals { of: next }
}

// What can stand, in each weighting, on the modules that are free from minute `least` up to minute `close`.
fn room_for(
    jobs: &Jobs,
    prepared: &Prepared,
    part: &Part,
    gone: usize,
    free: u16,
    least: u16,
    close: u16,
) -> Totals
    requires { ((MostSmall prepared.now.most) × (ProfileOf part.now gone free (modules_of jobs.now) least))
        × ((modules_of jobs.now ≤ most_modules) × (least ≤ close)) }
    ensures { (q : ℕ) → q < weightings → get_or result.of q 0 ≡ room_for
        (λ x. get_or prepared.now.most (x * weightings + q) 0) (modules_of jobs.now) part.now
        least close }
{
    let placed = part.placed;
    let mut room = Totals {
        of: [0u32; WEIGHTINGS],
    };
    let mut at = least;
    let mut f = free;
    for i in gone..placed {
        let to = next_end(at, part.until[i], close);
        room = with_room(room, prepared, f, to - at);
        at = to;
        f += part.held[i];
    }
    with_room(room, prepared, f, close - at)
}

// Whether the unplaced jobs outweigh, in one of the weightings, what the free modules can hold between minute `least` and minute `close`,
// by which all are given back. `gone` of the placed jobs are known to have given theirs back by then, and the others leave `free` modules.
pub fn outweighed(
    jobs: &Jobs,
    prepared: &Prepared,
    part: &Part,
    gone: usize,
    free: u16,
    least: u16,
    close: u16,
) -> bool
    requires { ((Fit jobs.now) × (Weighted jobs.now prepared.now.worth prepared.now.most))
        × (ProfileOf part.now gone free (modules_of jobs.now) least) }
    ensures { result ≡ true → Outweighed jobs.now part.now least close }
{
    if close < least {
        return false;
    }
    let room = room_for(jobs, prepared, part, gone, free, least, close);
    let weight = set_worth(jobs, prepared, part);
    for q in 0..WEIGHTINGS {
        if room.of[q] < weight.of[q] {
            return true;
        }
    }
    false
}
