// Whether tables pay, by an account for each number of jobs that are left. Its credit rises, where a table cuts a part-plan off, by what was
// spent behind such part-plans on the average, and falls by what tables cost; where it is used up, one table of many is made. Any account is
// sound.
ghost use Rattle.std.specs.Prelude.{◌≡◌, ◌+◌, ◌≤◌, length};
ghost use Rattle.figures.specs.Figures.{most_jobs};

use super::{CELLS, Slate};
use bits::Set;
use figures::MOST_JOBS;

// One account for each number of jobs, and one more, to which the part-plan of all jobs is charged.
pub const ACCOUNTS: usize = MOST_JOBS + 2;

// Where the credits stand; how many tables were left out; what was spent behind the part-plan of so many jobs that the search has entered
// and not left; the mean of that, MEAN times; and the fewest jobs of such a part-plan.
const CREDITS: usize = CELLS + MOST_JOBS;

const LEFT_OUT: usize = CREDITS + ACCOUNTS;

const SPENT: usize = LEFT_OUT + ACCOUNTS;

const BEHIND: usize = SPENT + ACCOUNTS;

const ENTERED: usize = BEHIND + ACCOUNTS;

const NONE_ENTERED: u16 = MOST_JOBS as u16 + 1;

// The largest credit, how many tables the first one pays, what a part-plan costs beside its table, and the most that is counted.
const MOST_CREDIT: u16 = 4096;

const FIRST_TABLES: u16 = 4;

const PART_PLAN: u16 = 3;

const MOST_SPENT: u16 = 8000;

// Over how many part-plans the mean goes, and how many tables there are for each that is made where the credit is used up.
const MEAN: u16 = 8;

const PAUSE: u16 = 64;

// The account of a part-plan: how many jobs are left.
pub fn account_of(unplaced: u32) -> usize
    ensures { result ≤ most_jobs }
{
    let ones = unplaced.size() as usize;
    if ones < MOST_JOBS {
        return ones;
    }
    MOST_JOBS
}

// One more that is left out, and none where one is made.
fn left_out_next(left_out: u16) -> u16 {
    if left_out < PAUSE - 1 {
        return left_out + 1;
    }
    0
}

// Whether a table of so many jobs is to be made.
pub fn pays(slate: &mut Slate, count: usize) -> bool
    requires { count ≤ most_jobs }
    ensures { length slate.new ≡ length slate.old }
{
    if slate[CREDITS + count] > 0 {
        return true;
    }
    let left_out = left_out_next(slate[LEFT_OUT + count]);
    slate[LEFT_OUT + count] = left_out;
    left_out == 0
}

// The sum of two amounts, or the most that is counted.
fn sum_of(a: u16, b: u16) -> u16 {
    if a > MOST_SPENT {
        return MOST_SPENT;
    }
    if b > MOST_SPENT {
        return MOST_SPENT;
    }
    (a + b).min(MOST_SPENT)
}

// Charges an amount to the part-plan of so many jobs.
fn spend(slate: &mut Slate, count: usize, amount: u16)
    requires { count ≤ most_jobs + 1 }
    ensures { length slate.new ≡ length slate.old }
{
    let spent = sum_of(slate[SPENT + count], amount);
    slate[SPENT + count] = spent;
}

// The mean after one more part-plan, behind which so much was spent; the first one alone counts for all.
fn mean_after(mean: u16, spent: u16) -> u16 {
    let last = spent.min(MOST_SPENT);
    if mean == 0 {
        return MEAN * last;
    }
    mean - mean / MEAN + last
}

// Leaves the part-plan of so many jobs.
fn leave(slate: &mut Slate, count: usize)
    requires { count ≤ most_jobs }
    ensures { length slate.new ≡ length slate.old }
{
    let spent = slate[SPENT + count];
    spend(slate, count + 1, spent);
    let mean = mean_after(slate[BEHIND + count], spent);
    slate[BEHIND + count] = mean;
    slate[SPENT + count] = 0;
}

// Leaves the part-plans that have so many jobs or fewer.
fn leave_up_to(slate: &mut Slate, count: usize)
    requires { count ≤ most_jobs }
    ensures { length slate.new ≡ length slate.old }
{
    for k in slate[ENTERED].min(NONE_ENTERED) as usize..=count {
        leave(slate, k);
    }
}

// Enters a part-plan of so many jobs.
pub fn enter(slate: &mut Slate, count: usize)
    requires { count ≤ most_jobs }
    ensures { length slate.new ≡ length slate.old }
{
    leave_up_to(slate, count);
    spend(slate, count + 1, PART_PLAN);
    slate[ENTERED] = count as u16;
}

// Charges a part-plan with fewer than so many jobs, for which there is no account.
pub fn pass(slate: &mut Slate, count: usize)
    requires { count ≤ most_jobs }
    ensures { length slate.new ≡ length slate.old }
{
    spend(slate, count, PART_PLAN);
}

// What a table of so many jobs costs with its turns, of which one that cuts off has fewer.
fn cost_of(count: usize, cut: bool) -> u16
    requires { count ≤ most_jobs }
{
    if cut {
        return (count as u16) / 2;
    }
    count as u16
}

// The credit after a table.
fn credit_after(credit: u16, mean: u16, cost: u16, cut: bool) -> u16 {
    let gained = if cut {
        sum_of(credit, mean / MEAN)
    } else {
        credit
    };
    if gained < cost {
        return 0;
    }
    (gained - cost).min(MOST_CREDIT)
}

// The fewest jobs of a part-plan that is entered, once a table of so many jobs is made.
fn entered_after(count: usize, cut: bool) -> u16
    requires { count ≤ most_jobs }
{
    if cut {
        return (count as u16) + 1;
    }
    count as u16
}

// Notes whether a table of so many jobs cut off the part-plan that was entered.
pub fn note(slate: &mut Slate, count: usize, cut: bool)
    requires { count ≤ most_jobs }
    ensures { length slate.new ≡ length slate.old }
{
    let cost = cost_of(count, cut);
    spend(slate, count + 1, cost);
    let credit = credit_after(slate[CREDITS + count], slate[BEHIND + count], cost, cut);
    slate[CREDITS + count] = credit;
    slate[ENTERED] = entered_after(count, cut);
}

// The credit before the first table.
fn first_credit(count: usize) -> u16
    requires { count ≤ most_jobs }
{
    FIRST_TABLES * (count as u16)
}

// Sets the credits before the first table.
fn put_credits(slate: &mut Slate)
    ensures { length slate.new ≡ length slate.old }
{
    for count in 0..=MOST_JOBS {
        slate[CREDITS + count] = first_credit(count);
    }
}

// Sets the accounts, where no part-plan is entered.
pub fn begin(slate: &mut Slate)
    ensures { length slate.new ≡ length slate.old }
{
    put_credits(slate);
    slate[ENTERED] = NONE_ENTERED;
}
