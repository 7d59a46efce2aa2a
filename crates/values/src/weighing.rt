// The weights of a sheet's lanes: the weighting that asks for the most minutes of the whole cabinet.
ghost use Rattle.std.specs.Prelude.{◌≡◌, ◌⊎◌, ◌+◌, ◌<◌, ◌≤◌, replicate};
ghost use Rattle.figures.specs.Figures.{most_jobs, most_modules};
ghost use Rattle.tables.specs.Tables.{need_at, count_of, modules_of, Fit};
ghost use Rattle.weights.specs.Weights.{weightings, widths, weight_in, Put};
ghost use Rattle.values.specs.Values.{most_total, Chosen};

use super::Figures;
use figures::MOST_JOBS;
use tables::Jobs;
use weights::{WEIGHTINGS, WIDTHS};

// The weight of each job, and the most weight that can stand on each number of modules.
#[derive(Drop)]
pub struct Weighed {
    pub weight: [u16; MOST_JOBS],
    pub most: [u16; WIDTHS],
}

// The modules that each job needs.
fn needs(jobs: &Jobs) -> Figures
    requires { count_of jobs.now ≤ most_jobs }
    ensures { Put (λ k. k) (replicate most_jobs 0) result.of (count_of jobs.now) (need_at jobs.now) }
{
    let count = jobs.count();
    let mut next = [0u16; MOST_JOBS];
    for k in 0..count {
        next[k] = jobs.need(k);
    }
    Figures { of: next }
}

// The most that can stand where each job weighs as many as the modules that it needs: x on x modules.
fn counted(modules: u16) -> weights::Most
    requires { modules ≤ most_modules }
    ensures { Put (λ x. x) (replicate widths 0) result.at (modules + 1) (λ x. x) }
{
    let mut next = [0u16; WIDTHS];
    for x in 0..=modules {
        next[x as usize] = x;
    }
    weights::Most { at: next }
}

// The weighting in which each job weighs as many as the modules that it needs.
fn own_weights(jobs: &Jobs) -> Weighed
    requires { Fit jobs.now }
    ensures { Chosen jobs.now result.weight result.most }
{
    let weight = needs(jobs).of;
    let most = counted(jobs.modules()).at;
    Weighed { weight, most }
}

// The weight of each job in weighting q.
fn weights_in(jobs: &Jobs, q: usize) -> Figures
    requires { (Fit jobs.now) × (q < weightings) }
    ensures { Put (λ k. k) (replicate most_jobs 0) result.of (count_of jobs.now)
        (λ k. weight_in (modules_of jobs.now) q (need_at jobs.now k)) }
{
    let count = jobs.count();
    let mut next = [0u16; MOST_JOBS];
    for k in 0..count {
        next[k] = weights::weight_of(jobs, k, q);
    }
    Figures { of: next }
}

// Weighting q.
fn weighting(jobs: &Jobs, q: usize) -> Weighed
    requires { (Fit jobs.now) × (q < weightings) }
    ensures { Chosen jobs.now result.weight result.most }
{
    let weight = weights_in(jobs, q).of;
    let most = weights::most_of(jobs, q).at;
    Weighed { weight, most }
}

// The products of two numbers of each job, summed up.
pub fn total(a: &[u16; MOST_JOBS], b: &[u16; MOST_JOBS], count: usize) -> u64
    requires { count ≤ most_jobs }
    ensures { result ≤ most_total }
{
    let mut sum: u64 = 0;
    for k in 0..count {
        sum += counting::times(a[k], b[k]) as u64;
    }
    sum
}

// So many times the number.
pub fn multiple(x: u64, by: u16) -> u64
    requires { x ≤ most_total }
{
    x * (by as u64)
}

// How long each job keeps its modules.
fn lengths(jobs: &Jobs) -> Figures
    requires { count_of jobs.now ≤ most_jobs }
{
    let count = jobs.count();
    let mut next = [0u16; MOST_JOBS];
    for k in 0..count {
        next[k] = jobs.kept(k);
    }
    Figures { of: next }
}

// What the jobs weigh in one weighting over the minutes for which they keep their modules, times the most that stands on the whole cabinet
// in the other.
fn asked(jobs: &Jobs, weight: &[u16; MOST_JOBS], most: &[u16; WIDTHS]) -> u64
    requires { Fit jobs.now }
{
    let kept = lengths(jobs);
    let worth = total(weight, &kept.of, jobs.count());
    multiple(worth, most[jobs.modules() as usize])
}

// Of two weightings the one that asks for more minutes of the whole cabinet; the first of equals.
fn heavier(best: Weighed, other: Weighed, jobs: &Jobs) -> Weighed
    requires { Fit jobs.now }
    ensures { ((result.weight ≡ best.weight) × (result.most ≡ best.most)) ⊎ ((result.weight ≡ other.weight) × (result.most ≡ other.most)) }
{
    let worth = asked(jobs, &best.weight, &other.most);
    let worth_other = asked(jobs, &other.weight, &best.most);
    if worth < worth_other {
        return other;
    }
    best
}

// The weighting that asks for the most minutes of the whole cabinet.
pub fn chosen(jobs: &Jobs) -> Weighed
    requires { Fit jobs.now }
    ensures { Chosen jobs.now result.weight result.most }
{
    let mut best = own_weights(jobs);
    for q in 0..WEIGHTINGS {
        let other = weighting(jobs, q);
        best = heavier(best, other, jobs);
    }
    best
}
