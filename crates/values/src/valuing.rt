// Values of the jobs, found in rounds: jobs that a lane serves lose value, and the others gain.
ghost use Rattle.std.specs.Prelude.{◌≡◌, ◌⊎◌, ◌<◌, ◌≤◌};
ghost use Rattle.figures.specs.Figures.{most_jobs};
ghost use Rattle.tables.specs.Tables.{count_of, Fit};
ghost use Rattle.values.specs.Values.{steps, most_value, most_total, most_rounds, Valued};

use super::serving::serve;
use super::weighing::{multiple, total};
use super::{Figures, wide};
use figures::MOST_JOBS;
use tables::Jobs;

// The largest share.
const WHOLE: u64 = 1048576;

// What a share rises to at most before it is scaled again.
const MOST_RAISED: u64 = 2 * WHOLE;

// The largest value.
const MOST_VALUE: u64 = 255;

// Rounds, at most, and for how many sets of jobs there is one.
const MOST_ROUNDS: usize = 100;

const SETS_A_ROUND: usize = 512;

// How many parts a share has in the first round, for each unit of weight; and after how many rounds it has one more.
const FIRST_PARTS: usize = 2;

const ROUNDS_A_PART: usize = 4;

// The value of each job before it is rounded: a share of the largest, which is WHOLE.
#[derive(Drop)]
struct Shares {
    of: [u32; MOST_JOBS],
}

// The values that bound best so far, the worth of all jobs with them, and what a lane serves.
#[derive(Drop)]
struct Valuation {
    value: [u16; MOST_JOBS],
    worth: u64,
    served: u16,
}

// The largest share, or 1 where all are 0.
fn largest(shares: &[u32; MOST_JOBS]) -> u32
    ensures { 0 < result }
{
    let mut top: u32 = 1;
    for k in 0..MOST_JOBS {
        if top < shares[k] {
            top = shares[k];
        }
    }
    top
}

// A share of the largest.
fn share(x: u32, top: u32) -> u32
    requires { 0 < top }
{
    let part = (x as u64) * WHOLE / (top as u64);
    if part > WHOLE {
        return WHOLE as u32;
    }
    part as u32
}

// The shares scaled so that the largest is WHOLE.
fn scaled(shares: &[u32; MOST_JOBS]) -> Shares {
    let top = largest(shares);
    let mut next = [0u32; MOST_JOBS];
    for k in 0..MOST_JOBS {
        next[k] = share(shares[k], top);
    }
    Shares { of: next }
}

// How long each job keeps its modules, scaled.
fn first_shares(jobs: &Jobs) -> Shares
    requires { count_of jobs.now ≤ most_jobs }
{
    let count = jobs.count();
    let mut next = [0u32; MOST_JOBS];
    for k in 0..count {
        next[k] = wide(jobs.kept(k));
    }
    scaled(&next)
}

// A job's value by its share.
fn value_of(share: u32, kept: u16, step: u16) -> u16
    ensures { (result ≤ most_value) × (kept < step → result ≡ 0) }
{
    if kept < step {
        return 0;
    }
    let value = (share as u64) * MOST_VALUE / WHOLE;
    if value > MOST_VALUE {
        return MOST_VALUE as u16;
    }
    value as u16
}

// The values by the shares.
fn values_of(shares: &[u32; MOST_JOBS], jobs: &Jobs, step: u16) -> Figures
    requires { count_of jobs.now ≤ most_jobs }
    ensures { Valued jobs.now step result.of }
{
    let count = jobs.count();
    let mut next = [0u16; MOST_JOBS];
    for k in 0..count {
        next[k] = value_of(shares[k], jobs.kept(k), step);
    }
    Figures { of: next }
}

// A share raised by so many of the parts.
fn raised(share: u32, by: u16, parts: u64) -> u32
    requires { 0 < parts }
{
    let more = (share as u64) + (share as u64) * (by as u64) / parts;
    if more > MOST_RAISED {
        return MOST_RAISED as u32;
    }
    more as u32
}

// A share lowered by so many of the parts.
fn lowered(share: u32, by: u16, parts: u64) -> u32
    requires { 0 < parts }
{
    let less = (share as u64) * (by as u64) / parts;
    if less > share as u64 {
        return 0;
    }
    share - (less as u32)
}

// The share of a job that the lane serves falls, the more the less it weighs; that of another job rises, the more the more it weighs.
fn turned(share: u32, weight: u16, most: u16, parts: u64, served: bool) -> u32
    requires { 0 < parts }
{
    if !served {
        return raised(share, weight, parts);
    }
    if weight < most {
        return lowered(share, most - weight, parts);
    }
    share
}

// The same for each job.
fn turn(
    shares: &[u32; MOST_JOBS],
    weight: &[u16; MOST_JOBS],
    most: u16,
    parts: u64,
    set: u32,
) -> Shares
    requires { 0 < parts }
{
    let mut next = [0u32; MOST_JOBS];
    for k in 0..MOST_JOBS {
        next[k] = turned(shares[k], weight[k], most, parts, (set >> k) % 2 == 1);
    }
    Shares { of: next }
}

// How many parts a share has in a round: more in later rounds.
fn parts_in(round: usize, most: u16) -> u64
    requires { round < most_rounds }
    ensures { 0 < result }
{
    let parts = (most as u64) * ((FIRST_PARTS + round / ROUNDS_A_PART) as u64);
    if parts == 0 {
        return 1;
    }
    parts
}

// The shares after a round in which a lane serves the jobs of the set.
fn shares_after(
    shares: &[u32; MOST_JOBS],
    weight: &[u16; MOST_JOBS],
    most: u16,
    round: usize,
    set: u32,
) -> Shares
    requires { round < most_rounds }
{
    let next = turn(shares, weight, most, parts_in(round, most), set);
    scaled(&next.of)
}

// Whether the jobs are worth more than so many lanes serve.
fn outdone(most: u16, served: u16, worth: u64) -> bool {
    (counting::times(most, served) as u64) < worth
}

// The best values so far, or these where they bound better.
fn keep(best: Valuation, value: Figures, worth: u64, served: u16) -> Valuation
    requires { (best.worth ≤ most_total) × (worth ≤ most_total) }
    ensures { (result.worth ≤ most_total) × ((result.value ≡ best.value) ⊎ (result.value ≡ value.of)) }
{
    if multiple(best.worth, served) < multiple(worth, best.served) {
        let of = value.of;
        return Valuation {
            value: of,
            worth: worth,
            served: served,
        };
    }
    best
}

// The round after this one, or none where the bound shows already that nothing ends so early.
fn round_after(round: usize, rounds: usize, stop: bool) -> usize
    requires { (round < rounds) × (rounds ≤ most_rounds) }
    ensures { (round < result) × (result ≤ rounds) }
{
    if stop {
        return rounds;
    }
    round + 1
}

// How many rounds: the more the longer a search of so many jobs can be.
fn rounds_for(count: usize) -> usize
    requires { count ≤ most_jobs }
    ensures { result ≤ most_rounds }
{
    let rounds = (1usize << count) / SETS_A_ROUND;
    if rounds > MOST_ROUNDS {
        return MOST_ROUNDS;
    }
    rounds
}

// Values of the jobs for which the lanes of `most` weight serve little in t steps.
pub fn values_for(jobs: &Jobs, weight: &[u16; MOST_JOBS], most: u16, step: u16, t: usize) -> Figures
    requires { ((Fit jobs.now) × (0 < step)) × (t < steps) }
    ensures { Valued jobs.now step result.of }
{
    let count = jobs.count();
    let mut shares = first_shares(jobs);
    let mut best = Valuation {
        value: [0u16; MOST_JOBS],
        worth: 0,
        served: 1,
    };
    let rounds = rounds_for(count);
    let mut round: usize = 0;
    while round < rounds {
        let value = values_of(&shares.of, jobs, step);
        let served = serve(jobs, &value.of, step, t);
        let worth = total(weight, &value.of, count);
        best = keep(best, value, worth, served.value);
        shares = shares_after(&shares.of, weight, most, round, served.set);
        round = round_after(round, rounds, outdone(most, served.value, worth));
    }
    let of = best.value;
    Figures { of }
}
