// Whether a card is one for a sheet: of its length, with rows that form a valid plan, an order and a trailer that belong to them.
#![tactic(auto)]

ghost use Rattle.std.specs.Prelude.{◌≡◌, ◌&&◌, ◌+◌, ◌*◌, ◌^◌, ◌≤◌, ◌<◌, ltb, leb, eqb, length, get_or};
ghost use Rattle.counting.specs.Counting.{only, every, count};
ghost use Rattle.figures.specs.Figures.{most_jobs, most_modules};
ghost use Rattle.schedule.specs.Plan.{finish, plan_end};
ghost use Rattle.tables.specs.Tables.{sheet_of, count_of, modules_of, Fit};
ghost use Rattle.card.specs.Card.{row_size, order_at, card_size};
ghost use Rattle.card.specs.Decoding.{plan_on};
ghost use Rattle.card_check.specs.CardFor.{job_at};
ghost use Rattle.card_check.specs.Test.{start_on, end_on, modules_on, clears, apart, follows, pair_fits, figures_fit, row_fits, named_once};
ghost use Rattle.card_check.specs.Test.{rises, order_fits, trailer_fits, card_fits, Sized};

use bits::Set;
use card::{ROW_END, ROW_MODULES, ROW_SIZE, TRAILER_COUNT, TRAILER_END, TRAILER_SIZE};
use tables::Jobs;
use words::Number;

// ---- rows

// Job j's start.
pub fn start(card: &[u8], j: usize) -> u32
    requires { row_size * j + row_size ≤ length card.now }
    ensures { (result ≡ start_on card.now j) × (result < 65536) }
{
    u16::read(card, ROW_SIZE * j) as u32
}

// Job j's module set.
fn modules(card: &[u8], j: usize) -> u64
    requires { row_size * j + row_size ≤ length card.now }
    ensures { result ≡ modules_on card.now j }
{
    u64::read(card, ROW_SIZE * j + ROW_MODULES)
}

// Job j's start plus its minutes.
pub fn finish(jobs: &Jobs, card: &[u8], j: usize) -> u32
    requires { (j < most_jobs) × (row_size * j + row_size ≤ length card.now) }
    ensures { (result ≡ finish (sheet_of jobs.now) (plan_on card.now) j) × (result < 131072) }
{
    start(card, j) + (jobs.minutes(j) as u32)
}

// Whether job j starts when job i has ended and its modules have rested.
fn clears(jobs: &Jobs, card: &[u8], i: usize, j: usize) -> bool
    requires { ((i < most_jobs) × (row_size * i + row_size ≤ length card.now)) × (row_size * j + row_size ≤ length card.now) }
    ensures { result ≡ clears (sheet_of jobs.now) card.now i j }
{
    finish(jobs, card, i) + (jobs.changeover() as u32) <= start(card, j)
}

// Whether jobs i and j have no module in common, or one clears the other.
fn apart(jobs: &Jobs, card: &[u8], i: usize, j: usize) -> bool
    requires { ((i < most_jobs) × (row_size * i + row_size ≤ length card.now)) × ((j < most_jobs) × (row_size * j + row_size ≤ length card.now)) }
    ensures { result ≡ apart (sheet_of jobs.now) card.now i j }
{
    i == j
        || modules(card, i) & modules(card, j) == 0
        || clears(jobs, card, i, j)
        || clears(jobs, card, j, i)
}

// Whether job j starts no earlier than the end of job i, if that is one of its earlier jobs.
fn follows(jobs: &Jobs, card: &[u8], i: usize, j: usize) -> bool
    requires { ((i < most_jobs) × (row_size * i + row_size ≤ length card.now)) × ((j < most_jobs) × (row_size * j + row_size ≤ length card.now)) }
    ensures { result ≡ follows (sheet_of jobs.now) card.now i j }
{
    !jobs.earlier(j).has(i) || finish(jobs, card, i) <= start(card, j)
}

// Whether the set has modules of a cabinet alone.
fn inside(set: u64, modules: u16) -> bool
    requires { modules ≤ most_modules }
    ensures { result ≡ ltb set (2 ^ modules) }
{
    modules == 64 || set >> modules == 0
}

// Whether job j's row is right by itself: its end, its start behind the arrival, and as many of the cabinet's modules as it needs.
#[tactic(auto, unfolding(crate::specs::Test::figures_fit))]
fn figures_fit(jobs: &Jobs, card: &[u8], j: usize) -> bool
    requires { (Fit jobs.now) × ((j < most_jobs) × (row_size * j + row_size ≤ length card.now)) }
    ensures { result ≡ figures_fit (sheet_of jobs.now) card.now j }
{
    let end = u16::read(card, ROW_SIZE * j + ROW_END);
    let set = modules(card, j);
    end as u32 == finish(jobs, card, j)
        && jobs.arrival(j) as u32 <= start(card, j)
        && inside(set, jobs.modules())
        && set.size() == jobs.need(j) as u32
}

// Whether jobs i and j may both stand as their rows say.
fn pair_fits(jobs: &Jobs, card: &[u8], j: usize, i: usize) -> bool
    requires { ((i < most_jobs) × (row_size * i + row_size ≤ length card.now)) × ((j < most_jobs) × (row_size * j + row_size ≤ length card.now)) }
    ensures { result ≡ pair_fits (sheet_of jobs.now) card.now j i }
{
    apart(jobs, card, i, j) && follows(jobs, card, i, j)
}

// Whether job j may stand beside every job.
fn pairs_fit(jobs: &Jobs, card: &[u8], j: usize) -> bool
    requires { (Sized jobs.now card.now) × (j < count_of jobs.now) }
    ensures { result
        ≡ every (count_of jobs.now) (pair_fits (sheet_of jobs.now) card.now j) }
{
    (0..jobs.count()).all(|i| pair_fits(jobs, card, j, i))
}

// Whether job j's row is right, by itself and beside the others.
fn row_fits(jobs: &Jobs, card: &[u8], j: usize) -> bool
    requires { (Sized jobs.now card.now) × (j < count_of jobs.now) }
    ensures { result ≡ row_fits (sheet_of jobs.now) card.now j }
{
    figures_fit(jobs, card, j) && pairs_fit(jobs, card, j)
}

// Whether the rows form a valid plan.
fn rows_fit(jobs: &Jobs, card: &[u8]) -> bool
    requires { Sized jobs.now card.now }
    ensures { result ≡ every (count_of jobs.now) (row_fits (sheet_of jobs.now) card.now) }
{
    (0..jobs.count()).all(|j| row_fits(jobs, card, j))
}

// ---- the order, of n jobs

// The job that the order names at place k.
fn job_at(card: &[u8], n: usize, k: usize) -> usize
    requires { (n ≤ most_jobs) × (row_size * n + k < length card.now) }
    ensures { result ≡ get_or card.now (order_at n + k) 0 }
{
    usize::from(card[ROW_SIZE * n + k])
}

// 1 if the order names job j at place k, and else 0.
fn named(card: &[u8], n: usize, k: usize, j: usize) -> usize
    requires { (n ≤ most_jobs) × (row_size * n + k < length card.now) }
    ensures { result ≡ only (eqb (get_or card.now (order_at n + k) 0) j) 1 }
{
    usize::from(job_at(card, n, k) == j)
}

// How often the order names job j.
fn times_named(card: &[u8], n: usize, j: usize) -> usize
    requires { (n ≤ most_jobs) × (length card.now ≡ card_size n) }
    ensures { result ≡ count n (λ k. eqb (get_or card.now (order_at n + k) 0) j) }
{
    let mut times = 0;
    for k in 0..n {
        times += named(card, n, k, j);
    }
    times
}

// Whether the order names each job once.
fn names_each(card: &[u8], n: usize) -> bool
    requires { (n ≤ most_jobs) × (length card.now ≡ card_size n) }
    ensures { result ≡ every n (λ j. eqb (count n (λ k. eqb (get_or card.now (order_at n + k) 0) j)) 1) }
{
    (0..n).all(|j| times_named(card, n, j) == 1)
}

// Whether the order names jobs alone, and their starts never fall.
fn rises(jobs: &Jobs, card: &[u8]) -> bool
    requires { Sized jobs.now card.now }
    ensures { result ≡ every (count_of jobs.now) (rises (sheet_of jobs.now) card.now) }
{
    let n = jobs.count();
    let mut last = 0;
    for k in 0..n {
        let job = job_at(card, n, k);
        if n <= job {
            return false;
        }
        let begins = start(card, job);
        if begins < last {
            return false;
        }
        last = begins;
    }
    true
}

// Whether the order names each job once with starts never falling.
#[tactic(auto, unfolding(crate::specs::Test::order_fits))]
fn order_fits(jobs: &Jobs, card: &[u8]) -> bool
    requires { Sized jobs.now card.now }
    ensures { result ≡ order_fits (sheet_of jobs.now) card.now }
{
    names_each(card, jobs.count()) && rises(jobs, card)
}

// ---- the trailer

// The largest end.
fn last_end(jobs: &Jobs, card: &[u8]) -> u32
    requires { Sized jobs.now card.now }
    ensures { result ≡ plan_end (sheet_of jobs.now) (plan_on card.now) }
{
    let mut last: u32 = 0;
    for j in 0..jobs.count() {
        last = last.max(finish(jobs, card, j));
    }
    last
}

// Whether the trailer has the order's offset, the largest end and the number of jobs.
#[tactic(auto, unfolding(crate::specs::Test::trailer_fits))]
fn trailer_fits(jobs: &Jobs, card: &[u8]) -> bool
    requires { Sized jobs.now card.now }
    ensures { result ≡ trailer_fits (sheet_of jobs.now) card.now }
{
    let count = jobs.count();
    let at = (ROW_SIZE + 1) * count;
    u32::read(card, at) == (ROW_SIZE * count) as u32
        && u16::read(card, at + TRAILER_END) as u32 == last_end(jobs, card)
        && u16::read(card, at + TRAILER_COUNT) as usize == count
}

// Whether the card is one for the sheet of this table.
#[tactic(auto, unfolding(crate::specs::Test::card_fits))]
pub fn fits(jobs: &Jobs, card: &[u8]) -> bool
    requires { Fit jobs.now }
    ensures { result ≡ card_fits (sheet_of jobs.now) card.now }
{
    card.len() == (ROW_SIZE + 1) * jobs.count() + TRAILER_SIZE
        && rows_fit(jobs, card)
        && order_fits(jobs, card)
        && trailer_fits(jobs, card)
}
