// Values of jobs, and the lanes that they fill: the tables of the bound by lanes.
#![tactic(auto)]

ghost use Rattle.std.specs.Prelude.{◌≡◌, ◌+◌, ◌*◌, ◌/◌, ◌<◌, ◌≤◌, length, get_or};
ghost use Rattle.figures.specs.Figures.{most_jobs};
ghost use Rattle.tables.specs.Tables.{Fit};
ghost use Rattle.weights.specs.Weights.{Put};
ghost use Rattle.values.specs.Values.{steps, worth_place, lanes_size, Joined, Laned};

use figures::MOST_JOBS;
use tables::Jobs;
use weights::WIDTHS;

mod serving;
mod valuing;
mod weighing;

// For how many steps the reach of a lane is kept.
pub const STEPS: usize = 1024;

// The tables side by side: from place 0 on the reach of a lane, at MOST_AT + x the most weight on x modules, at WORTH_AT + k the weight times
// the value of job k, and at STEP_AT the minutes of a step.
pub const MOST_AT: usize = STEPS;

pub const WORTH_AT: usize = MOST_AT + WIDTHS;

pub const STEP_AT: usize = WORTH_AT + MOST_JOBS;

#[derive(Drop)]
pub struct Lanes {
    pub of: [u32; STEP_AT + 1],
}

// A number for each job: its weight, or its value.
#[derive(Drop)]
pub struct Figures {
    pub of: [u16; MOST_JOBS],
}

// A number as a wider one.
pub fn wide(x: u16) -> u32
    ensures { result ≡ x }
{
    x as u32
}

// So many minutes in whole steps.
pub fn steps(minutes: u16, step: u32) -> usize
    requires { 0 < step }
    ensures { result ≡ minutes / step }
{
    if step == 1 {
        return minutes as usize;
    }
    ((minutes as u32) / step) as usize
}

// ---- the tables side by side

// The numbers of a list put in from a place on.
fn put_list(lanes: Lanes, at: usize, list: &[u16]) -> Lanes
    requires { (length lanes.of ≡ lanes_size) × (at + length list.now ≤ lanes_size) }
    ensures { Put (λ x. at + x) lanes.of result.of (length list.now) (λ x. get_or list.now x 0) }
{
    let mut next = lanes;
    for x in 0..list.len() {
        next.of[at + x] = wide(list[x]);
    }
    next
}

// The weight times the value of each job put in.
fn put_worth(lanes: Lanes, weight: &[u16; MOST_JOBS], value: &[u16; MOST_JOBS]) -> Lanes
    requires { length lanes.of ≡ lanes_size }
    ensures { Put (λ k. worth_place + k) lanes.of result.of most_jobs
        (λ k. get_or weight.now k 0 * get_or value.now k 0) }
{
    let mut next = lanes;
    for k in 0..MOST_JOBS {
        next.of[WORTH_AT + k] = counting::times(weight[k], value[k]);
    }
    next
}

// All tables put in.
fn joined(
    reach: &[u16; STEPS],
    most: &[u16; WIDTHS],
    weight: &[u16; MOST_JOBS],
    value: &[u16; MOST_JOBS],
    step: u16,
) -> Lanes
    ensures { Joined reach.now most.now weight.now value.now step result.of }
{
    let lanes = Lanes {
        of: [0u32; STEP_AT + 1],
    };
    let lanes = put_list(lanes, 0, reach);
    let lanes = put_list(lanes, MOST_AT, most);
    let mut lanes = put_worth(lanes, weight, value);
    lanes.of[STEP_AT] = wide(step);
    lanes
}

// The step in which the last minute before `end` falls.
fn last_step(end: u16, step: u16) -> usize
    requires { step ≡ end / steps + 1 }
    ensures { result < steps }
{
    if end == 0 {
        return 0;
    }
    ((end - 1) / step) as usize
}

// The lanes of a sheet, with weights and values chosen so that few of the plans that give back all modules before minute `close` are left
// to be looked at.
pub fn lanes_of(jobs: &Jobs, close: u16) -> Lanes
    requires { Fit jobs.now }
    ensures { Laned jobs.now result.of }
{
    let step = close / (STEPS as u16) + 1;
    let t = last_step(close, step);
    let choice = weighing::chosen(jobs);
    let weight = choice.weight;
    let most = choice.most;
    let value = valuing::values_for(jobs, &weight, most[jobs.modules() as usize], step, t);
    let reach = serving::reach_of(jobs, &value.of, step);
    joined(&reach.at, &most, &weight, &value.of, step)
}
