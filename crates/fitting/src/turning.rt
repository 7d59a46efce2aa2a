// The shares after a table that shows nothing: those of jobs that too few lanes serve rise, and those of jobs that too many serve fall. Any
// shares are sound.
ghost use Rattle.std.specs.Prelude.{◌≡◌, ◌+◌, ◌<◌, ◌≤◌, length};
ghost use Rattle.figures.specs.Figures.{most_jobs};
ghost use Rattle.fitting.specs.Fitting.{most_move, Within};

use super::serving::minutes_from;
use super::{CELLS, Frame, Slate};
use figures::MOST_JOBS;
use tables::{Jobs, Part};

// More lanes than a cabinet has modules.
const MANY: u16 = 1000;

// How fast shares move, the largest share, and the largest share of all below which they are doubled.
const SPEED: u64 = 24;

const MOST_SHARE: u64 = 25600;

const LOW_SHARE: u16 = 9600;

// How many lanes serve each job.
#[derive(Drop)]
struct Lanes {
    of: [u16; MOST_JOBS],
}

// A cell of a row; 0 outside of the table.
fn cell(slate: &Slate, row: usize, cols: usize, x: usize) -> u16 {
    if row > MOST_JOBS {
        return 0;
    }
    if cols > CELLS {
        return 0;
    }
    if x > CELLS {
        return 0;
    }
    let place = row * cols + x;
    if place < CELLS {
        return slate[place];
    }
    0
}

// So many lanes and more.
fn more_lanes(lanes: u16, more: u16, taken: bool) -> u16 {
    if !taken {
        return lanes;
    }
    if lanes > MANY {
        return lanes;
    }
    if more > MANY {
        return lanes;
    }
    lanes + more
}

// So many steps less those of a job.
fn less_steps(x: usize, lasts: usize) -> usize {
    if x < lasts {
        return 0;
    }
    x - lasts
}

// The steps that are left of x once the lane has served a job that has `room` steps from its release on.
fn steps_left(x: usize, room: usize, lasts: usize) -> usize {
    if room < x {
        return less_steps(room, lasts);
    }
    less_steps(x, lasts)
}

// The i-th job.
fn job_at(order: &[usize; MOST_JOBS], count: usize, i: usize) -> usize
    requires { (Within order.now count) × (i < count) }
    ensures { result < most_jobs }
{
    order[i]
}

// A step back through the rows.
#[derive(Drop)]
struct Step {
    taken: bool,
    x: usize,
}

// Whether a lane that has x steps serves the job of row `row` + 1, which is so where the row before it has less, and the steps that are left.
fn step_back(slate: &Slate, frame: Frame, row: usize, x: usize, kept: u16, release: u16) -> Step
    requires { (0 < frame.step) × (row < most_jobs) }
{
    if cell(slate, row, frame.cols, x) == cell(slate, row + 1, frame.cols, x) {
        return Step { taken: false, x };
    }
    let lasts = values::steps(kept, frame.step as u32);
    let room = values::steps(minutes_from(release, frame.close), frame.step as u32);
    let x = steps_left(x, room, lasts);
    Step { taken: true, x }
}

// How many lanes serve each job, with `more` lanes that open at minute t: the rows tell, from the last to the first, which jobs they serve.
fn traced(
    slate: &Slate,
    jobs: &Jobs,
    frame: Frame,
    order: &[usize; MOST_JOBS],
    count: usize,
    release: &[u16; MOST_JOBS],
    lanes: Lanes,
    t: u16,
    more: u16,
) -> Lanes
    requires { (0 < frame.step) × (Within order.now count) }
{
    if more == 0 {
        return lanes;
    }
    let mut next = lanes.of;
    let mut x = values::steps(minutes_from(t, frame.close), frame.step as u32);
    for i in (0..count).rev() {
        let j = job_at(order, count, i);
        let step = step_back(slate, frame, i, x, jobs.kept(j), release[j]);
        next[j] = more_lanes(next[j], more, step.taken);
        x = step.x;
    }
    Lanes { of: next }
}

// How many lanes serve each job: those that are open from the first, and those that open as each placed job ends.
fn lanes_of(
    slate: &Slate,
    jobs: &Jobs,
    part: &Part,
    frame: Frame,
    order: &[usize; MOST_JOBS],
    count: usize,
    release: &[u16; MOST_JOBS],
    gone: usize,
    free: u16,
) -> Lanes
    requires { ((0 < frame.step) × (Within order.now count))
        × (part.now.placed ≤ most_jobs) }
{
    let none = Lanes {
        of: [0u16; MOST_JOBS],
    };
    let placed = part.placed;
    let mut lanes = traced(
        slate,
        jobs,
        frame,
        order,
        count,
        release,
        none,
        frame.least,
        free,
    );
    for i in gone..placed {
        let t = part.until[i];
        let more = part.held[i];
        lanes = traced(slate, jobs, frame, order, count, release, lanes, t, more);
    }
    lanes
}

// The difference of two numbers.
fn difference(a: u16, b: u16) -> u16 {
    if a < b {
        return b - a;
    }
    a - b
}

// The squares of the differences between the lanes that a job needs and those that serve it, summed up.
fn squares_of(
    jobs: &Jobs,
    lanes: &[u16; MOST_JOBS],
    order: &[usize; MOST_JOBS],
    count: usize,
) -> u64
    requires { Within order.now count }
{
    let mut total: u64 = 0;
    for i in 0..count {
        let j = job_at(order, count, i);
        let d = difference(jobs.need(j), lanes[j]);
        total += counting::times(d, d) as u64;
    }
    total
}

// A share that is raised or lowered.
fn moved(share: u16, by: u64, up: bool) -> u16
    requires { by ≤ most_move }
{
    if up {
        let more = (share as u64) + by;
        if more > MOST_SHARE {
            return MOST_SHARE as u16;
        }
        return more as u16;
    }
    if by > share as u64 {
        return 0;
    }
    share - (by as u16)
}

// How far a share moves.
fn move_of(gap: u32, difference: u16, squares: u64) -> u64
    requires { 0 < squares }
    ensures { result ≤ most_move }
{
    (gap as u64) * (difference as u64) * SPEED / squares
}

// Moves the shares of the jobs that are left.
fn move_shares(
    slate: &mut Slate,
    jobs: &Jobs,
    lanes: &[u16; MOST_JOBS],
    order: &[usize; MOST_JOBS],
    count: usize,
    gap: u32,
    squares: u64,
)
    requires { (0 < squares) × (Within order.now count) }
    ensures { length slate.new ≡ length slate.old }
{
    for i in 0..count {
        let j = job_at(order, count, i);
        let need = jobs.need(j);
        let by = move_of(gap, difference(need, lanes[j]), squares);
        slate[CELLS + j] = moved(slate[CELLS + j], by, lanes[j] < need);
    }
}

// The largest share of the jobs that are left.
fn largest_share(slate: &Slate, order: &[usize; MOST_JOBS], count: usize) -> u16
    requires { Within order.now count }
{
    let mut largest: u16 = 0;
    for i in 0..count {
        let j = job_at(order, count, i);
        largest = largest.max(slate[CELLS + j]);
    }
    largest
}

// Twice a share that is low.
fn doubled(share: u16) -> u16 {
    if share < LOW_SHARE {
        return 2 * share;
    }
    share
}

// Doubles the shares of the jobs that are left.
fn double_shares(slate: &mut Slate, order: &[usize; MOST_JOBS], count: usize)
    requires { Within order.now count }
    ensures { length slate.new ≡ length slate.old }
{
    for i in 0..count {
        let j = job_at(order, count, i);
        slate[CELLS + j] = doubled(slate[CELLS + j]);
    }
}

// Moves the shares of the jobs that are left by the lanes that serve them, the further the larger the gap, and doubles them where all are low.
pub fn turn(
    slate: &mut Slate,
    jobs: &Jobs,
    part: &Part,
    frame: Frame,
    order: &[usize; MOST_JOBS],
    count: usize,
    release: &[u16; MOST_JOBS],
    gone: usize,
    free: u16,
    gap: u32,
)
    requires { ((0 < frame.step) × (Within order.now count))
        × (part.now.placed ≤ most_jobs) }
    ensures { length slate.new ≡ length slate.old }
{
    let lanes = lanes_of(slate, jobs, part, frame, order, count, release, gone, free);
    let squares = squares_of(jobs, &lanes.of, order, count);
    if 0 < squares {
        move_shares(slate, jobs, &lanes.of, order, count, gap, squares);
        if largest_share(slate, order, count) < LOW_SHARE {
            double_shares(slate, order, count);
        }
    }
}
