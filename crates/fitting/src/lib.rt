// The bound by lanes, fitted to a part-plan: a table of the jobs that are left, no job of which starts before its release, with values that
// are handed from part-plan to part-plan.
#![tactic(auto)]

ghost use Rattle.std.specs.Prelude.{◌≡◌, true, ℕ, ◌<◌, ◌≤◌, length, get_or};
ghost use Rattle.figures.specs.Figures.{most_jobs};
ghost use Rattle.tables.specs.Tables.{count_of, modules_of, Fit};
ghost use Rattle.placement.specs.Profile.{ProfileOf};
ghost use Rattle.lanes.specs.Lanes.{most_served};
ghost use Rattle.fitting.specs.Fitting.{slate_size, release_at, Framed, HasRoom, Tabling, OverfullFrom};

use figures::MOST_JOBS;
use tables::{Jobs, Part};

mod cells;
mod ordering;
mod paying;
mod serving;
mod turning;
mod valuing;

// The cells of all rows of a table.
pub const CELLS: usize = 6144;

// What the bound reckons on, lent: the rows of a table one behind another; from CELLS on the share of each job, of which its value is made;
// and behind them the accounts of what tables have paid.
pub const SLATE_PLACES: usize = CELLS + MOST_JOBS + 4 * paying::ACCOUNTS + 1;

pub type Slate = [u16; SLATE_PLACES];

// How a table stands: how many columns a row has, the minutes of a step, and the minutes from which and up to which lanes serve.
#[derive(Clone, Copy)]
pub struct Frame {
    pub cols: usize,
    pub step: u16,
    pub least: u16,
    pub close: u16,
}

// The frame of a table of so many jobs.
fn frame_of(count: usize, least: u16, close: u16) -> Frame
    requires { (count ≤ most_jobs) × (least ≤ close) }
    ensures { ((Framed result) × (HasRoom result count)) × ((result.least ≡ least) × (result.close ≡ close)) }
{
    let most = (CELLS / (count + 1) - 1) as u16;
    let cols = (most.min(close - least) as usize) + 1;
    let step = (close - least) / (cols as u16) + 1;
    Frame {
        cols,
        step,
        least,
        close,
    }
}

// One more than what the lanes serve beyond what the jobs are worth; 0 where they serve less.
fn gap_of(served: u32, worth: u32) -> u32
    requires { served ≤ most_served }
    ensures { result ≡ 0 → served < worth }
{
    if served < worth {
        return 0;
    }
    served - worth + 1
}

// The same by a table of the jobs that are left, with the values that their shares make.
fn gap(
    slate: &mut Slate,
    jobs: &Jobs,
    part: &Part,
    frame: Frame,
    order: &[usize; MOST_JOBS],
    count: usize,
    release: &[u16; MOST_JOBS],
    gone: usize,
    free: u16,
) -> u32
    requires { (Tabling jobs.now part.now frame order.now count release.now gone free) × (length slate.old ≡ slate_size) }
    ensures over { result ≡ 0 → OverfullFrom jobs.now part.now (λ k. get_or release.now k 0)
        frame.least frame.close }
    ensures size { length slate.new ≡ length slate.old }
{
    let unplaced = part.unplaced;
    let value = valuing::values_of(slate, jobs, unplaced, frame.step);
    let base = serving::fill_rows(slate, jobs, frame, order, count, release, &value.of);
    let served = serving::served(slate, base, frame, jobs, part, gone, free);
    gap_of(served, valuing::worth_of(jobs, &value.of))
}

// How often the shares are turned at one part-plan.
const TURNS: usize = 2;

// Whether a table shows that the lanes are overfull, the shares turned after each that does not.
fn shown(
    slate: &mut Slate,
    jobs: &Jobs,
    part: &Part,
    frame: Frame,
    order: &[usize; MOST_JOBS],
    count: usize,
    release: &[u16; MOST_JOBS],
    gone: usize,
    free: u16,
) -> bool
    requires { (Tabling jobs.now part.now frame order.now count release.now gone free) × (length slate.old ≡ slate_size) }
    ensures over { result ≡ true → OverfullFrom jobs.now part.now (λ k. get_or release.now k 0)
        frame.least frame.close }
    ensures size { length slate.new ≡ length slate.old }
{
    for turns in 0..TURNS {
        let above = gap(slate, jobs, part, frame, order, count, release, gone, free);
        if above == 0 {
            return true;
        }
        turning::turn(
            slate, jobs, part, frame, order, count, release, gone, free, above,
        );
    }
    gap(slate, jobs, part, frame, order, count, release, gone, free) == 0
}

// Whether a table shows it of the unplaced jobs, where no job starts before its start in `at`.
fn tabled(
    slate: &mut Slate,
    jobs: &Jobs,
    part: &Part,
    at: &[u16; MOST_JOBS],
    gone: usize,
    free: u16,
    least: u16,
    close: u16,
) -> bool
    requires { (((Fit jobs.now) × (length slate.old ≡ slate_size)) × (least ≤ close))
        × (((k : ℕ) → k < count_of jobs.now → least ≤ get_or at.now k 0)
        × (ProfileOf part.now gone free (modules_of jobs.now) least)) }
    ensures over { result ≡ true → OverfullFrom jobs.now part.now (release_at at.now least) least close }
    ensures size { length slate.new ≡ length slate.old }
{
    let release = ordering::releases_of(at, least);
    let left = ordering::ordered(&release.of, part.unplaced, jobs.count());
    let frame = frame_of(left.count, least, close);
    shown(
        slate,
        jobs,
        part,
        frame,
        &left.order,
        left.count,
        &release.of,
        gone,
        free,
    )
}

// The fewest jobs of which a table is made.
const FEWEST: usize = 5;

// Whether the unplaced jobs have more value than the lanes can serve between minute `least` and minute `close`, by which all modules are
// given back, where no job starts before its start in `at`. `gone` of the placed jobs are known to have given theirs back by minute `least`,
// and the others leave `free` modules. The shares on the slate are turned towards values that tell.
pub fn overfull(
    slate: &mut Slate,
    jobs: &Jobs,
    part: &Part,
    at: &[u16; MOST_JOBS],
    gone: usize,
    free: u16,
    least: u16,
    close: u16,
) -> bool
    requires { ((Fit jobs.now) × (length slate.old ≡ slate_size))
        × (((k : ℕ) → k < count_of jobs.now → least ≤ get_or at.now k 0)
        × (ProfileOf part.now gone free (modules_of jobs.now) least)) }
    ensures over { result ≡ true → OverfullFrom jobs.now part.now (release_at at.now least) least close }
    ensures size { length slate.new ≡ length slate.old }
{
    if close < least {
        return false;
    }
    let account = paying::account_of(part.unplaced);
    if account < FEWEST {
        paying::pass(slate, FEWEST);
        return false;
    }
    paying::enter(slate, account);
    if !paying::pays(slate, account) {
        return false;
    }
    let over = tabled(slate, jobs, part, at, gone, free, least, close);
    paying::note(slate, account, over);
    over
}

// Sets shares and accounts before the first part-plan.
pub fn begin(slate: &mut Slate, jobs: &Jobs)
    requires { Fit jobs.now }
    ensures { length slate.new ≡ length slate.old }
{
    valuing::put_shares(slate, jobs);
    paying::begin(slate);
}
