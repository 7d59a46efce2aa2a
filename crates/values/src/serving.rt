// The reach of a lane: the most value that it can serve in each number of steps, and by which jobs.
ghost use Rattle.std.specs.Prelude.{◌≡◌, ℕ, ◌<◌, ◌≤◌, length, get_or};
ghost use Rattle.tables.specs.Tables.{count_of, Fit};
ghost use Rattle.weights.specs.Weights.{most_with, Put};
ghost use Rattle.values.specs.Values.{steps, most_value, few_value, Valued, Reached};

use super::{STEPS, steps};
use figures::MOST_JOBS;
use tables::Jobs;

// The most value that a lane can serve in each number of steps.
#[derive(Drop)]
pub struct Reach {
    pub at: [u16; STEPS],
}

// The jobs by which a lane serves that much.
#[derive(Drop)]
struct Sets {
    at: [u32; STEPS],
}

// What a lane serves in some steps, and by which jobs.
#[derive(Drop)]
pub struct Served {
    pub value: u16,
    pub set: u32,
}

// The most value in each number of steps, with one job more.
fn with_value(old: &[u16; STEPS], width: usize, value: u16) -> Reach
    requires { (length old.now ≡ steps) × (((p : ℕ) → get_or old.now p 0 ≤ few_value) × (value ≤ most_value)) }
    ensures { Put (λ x. x) old.now result.at steps (most_with old.now width value) }
{
    let mut next = *old;
    for x in width..STEPS {
        next[x] = old[x].max(value + old[x - width]);
    }
    Reach { at: next }
}

// The most value of all jobs in each number of steps.
pub fn reach_of(jobs: &Jobs, value: &[u16; MOST_JOBS], step: u16) -> Reach
    requires { ((Fit jobs.now) × (0 < step)) × (Valued jobs.now step value.now) }
    ensures { Reached jobs.now value.now (count_of jobs.now) step result.at }
{
    let count = jobs.count();
    let mut reach = Reach { at: [0u16; STEPS] };
    for k in 0..count {
        let kept = jobs.kept(k);
        let gain = value[k];
        let lasts = steps(kept, step as u32);
        reach = with_value(&reach.at, lasts, gain);
    }
    reach
}

// One of two sets.
fn either(first: bool, a: u32, b: u32) -> u32 {
    if first {
        return a;
    }
    b
}

// The jobs that reach the most value in each number of steps, with one job more.
fn with_set(reach: &[u16; STEPS], sets: &[u32; STEPS], width: usize, value: u16, job: u32) -> Sets
    requires { ((p : ℕ) → get_or reach.now p 0 ≤ few_value) × (value ≤ most_value) }
{
    let mut next = *sets;
    for x in width..STEPS {
        let more = reach[x] < value + reach[x - width];
        next[x] = either(more, sets[x - width] | job, sets[x]);
    }
    Sets { at: next }
}

// The most value that a lane serves in t steps.
pub fn serve(jobs: &Jobs, value: &[u16; MOST_JOBS], step: u16, t: usize) -> Served
    requires { ((Fit jobs.now) × (0 < step)) × ((Valued jobs.now step value.now) × (t < steps)) }
{
    let count = jobs.count();
    let mut reach = Reach { at: [0u16; STEPS] };
    let mut sets = Sets { at: [0u32; STEPS] };
    for k in 0..count {
        let width = steps(jobs.kept(k), step as u32);
        sets = with_set(&reach.at, &sets.at, width, value[k], 1u32 << k);
        reach = with_value(&reach.at, width, value[k]);
    }
    Served {
        value: reach.at[t],
        set: sets.at[t],
    }
}
