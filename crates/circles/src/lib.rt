// Whether some job would have to end before itself: jobs are taken out one after another, each of them when none of its earlier jobs is left.
#![tactic(auto)]

ghost use Rattle.std.specs.Prelude.{◌≤◌};
ghost use Rattle.figures.specs.Figures.{most_jobs};
ghost use Rattle.tables.specs.Tables.{sheet_of, count_of};
ghost use Rattle.circles.specs.Circles.{NextOr, CircularOr};

use bits::Set;
use tables::Jobs;

// A job that is left and none of whose earlier jobs is left, or the number of jobs where there is none.
fn next_of(jobs: &Jobs, left: u32) -> usize
    requires { count_of jobs.now ≤ most_jobs }
    ensures { NextOr jobs.now left result }
{
    let count = jobs.count();
    for j in left.below(count).members() {
        if jobs.earlier(j) & left == 0 {
            return j;
        }
    }
    count
}

// Whether some job would have to end before itself, directly or through others.
pub fn circular(jobs: &Jobs) -> bool
    requires { count_of jobs.now ≤ most_jobs }
    ensures { CircularOr (sheet_of jobs.now) result }
{
    let count = jobs.count();
    let mut left = (1u32 << count) - 1;
    while left != 0 {
        let j = next_of(jobs, left);
        if j == count {
            return true;
        }
        left = left.without(j);
    }
    false
}
