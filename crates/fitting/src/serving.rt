// The table of the jobs that are left, and what the lanes serve by its last row.
ghost use Rattle.std.specs.Prelude.{◌≡◌, ℕ, ◌+◌, ◌-◌, ◌/◌, ◌<◌, ◌≤◌, length, get_or};
ghost use Rattle.tables.specs.Tables.{modules_of, count_of, Fit};
ghost use Rattle.weights.specs.Weights.{Put};
ghost use Rattle.lanes.specs.Lanes.{served_on, most_reach, most_served, Serving};
ghost use Rattle.fitting.specs.Fitting.{cells, slate_size, row_at, row_with, reach_by, top_value, Valued, Framed, HasRoom, Ordered, RowOf};

use super::cells::{add_row, clear_cells};
use super::{Frame, Slate};
use figures::MOST_JOBS;
use tables::{Jobs, Part};

// The minutes from a release up to the closing minute.
pub fn minutes_from(release: u16, close: u16) -> u16
    ensures { result ≡ close - release }
{
    if close < release {
        return 0;
    }
    close - release
}

// Behind the row at place `from` the row with a job more, which keeps a module for so many minutes.
fn add_job(slate: &mut Slate, from: usize, frame: Frame, kept: u16, release: u16, value: u16)
    requires { ((Framed frame) × ((frame.least ≤ release) × (from + frame.cols + frame.cols ≤ cells)))
        × ((length slate.old ≡ slate_size) × ((value ≤ top_value) × ((x : ℕ) → x < frame.cols → row_at slate.old from x ≤ most_reach))) }
    ensures { Put (λ x. from + frame.cols + x) slate.old slate.new frame.cols
        (row_with (row_at slate.old from) (kept / frame.step) ((frame.close - release) / frame.step) value) }
{
    let lasts = values::steps(kept, frame.step as u32);
    let room = values::steps(minutes_from(release, frame.close), frame.step as u32);
    add_row(slate, from, frame.cols, lasts, room, value);
}

// Makes the table, a row for each of so many jobs in their order, and says where the last row begins.
pub fn fill_rows(
    slate: &mut Slate,
    jobs: &Jobs,
    frame: Frame,
    order: &[usize; MOST_JOBS],
    count: usize,
    release: &[u16; MOST_JOBS],
    value: &[u16; MOST_JOBS],
) -> usize
    requires { (((Fit jobs.now) × (length slate.old ≡ slate_size)) × ((Framed frame) × (HasRoom frame count)))
        × ((Ordered (λ k. get_or release.now k 0) (count_of jobs.now) order.now count)
        × (((k : ℕ) → k < count_of jobs.now → frame.least ≤ get_or release.now k 0) × (Valued jobs.now frame.step value.now))) }
    ensures rows { (result + frame.cols ≤ cells) × (RowOf jobs.now frame (λ k. get_or release.now k 0)
        (λ k. get_or value.now k 0) order.now count (row_at slate.new result)) }
    ensures size { length slate.new ≡ length slate.old }
{
    clear_cells(slate, frame.cols);
    let mut from: usize = 0;
    for i in 0..count {
        let j = order[i];
        add_job(slate, from, frame, jobs.kept(j), release[j], value[j]);
        from += frame.cols;
    }
    from
}

// What a lane serves from minute t on by the row at place `base`.
fn reach_from(slate: &Slate, base: usize, frame: Frame, t: u16) -> u32
    requires { ((Framed frame) × (base + frame.cols ≤ cells)) × ((frame.least ≤ t) × (t ≤ frame.close)) }
    ensures { result ≡ reach_by frame (row_at slate.now base) (frame.close - t) }
{
    let column = values::steps(frame.close - t, frame.step as u32);
    values::wide(slate[base + column])
}

// What the lanes serve, one on each module from the minute on at which it is free.
pub fn served(
    slate: &Slate,
    base: usize,
    frame: Frame,
    jobs: &Jobs,
    part: &Part,
    gone: usize,
    free: u16,
) -> u32
    requires { ((Framed frame) × (base + frame.cols ≤ cells))
        × (Serving (λ x. x) (reach_by frame (row_at slate.now base)) part.now gone free (modules_of jobs.now) frame.least
        frame.close) }
    ensures { (result ≡ served_on (λ x. x) (reach_by frame (row_at slate.now base)) (modules_of jobs.now)
        part.now frame.least frame.close) × (result ≤ most_served) }
{
    let placed = part.placed;
    let mut total: u32 = 0;
    let mut at = frame.least;
    let mut reach = reach_from(slate, base, frame, at);
    let mut f = free;
    for i in gone..placed {
        let to = weights::next_end(at, part.until[i], frame.close);
        let next = reach_from(slate, base, frame, to);
        total += values::wide(f) * (reach - next);
        at = to;
        reach = next;
        f += part.held[i];
    }
    total + values::wide(f) * reach
}
