// The tests that reading and writing share.
ghost use Rattle.std.specs.Prelude.{◌≡◌, ◌≤◌};
ghost use Rattle.checking.specs.Checking.{first_failing};
ghost use Rattle.checking.specs.Refusals.{refusal_number};
ghost use Rattle.sheet_format.specs.Figures.{most_jobs};
ghost use Rattle.sheet_format.specs.Checks.{outside, faulty, figure_checks};

use super::layout::{LAST_DEPARTURE, LONGEST_LABEL, WIDEST_JOB};
use super::{Cabinet, Job};
use checking::Refusal;
use figures::{LAST_ARRIVAL, LONGEST_CHANGEOVER, MOST_JOBS, MOST_MINUTES, MOST_MODULES};

#[tactic(auto, unfolding(crate::specs::Checks::outside))]
pub fn outside(low: usize, high: usize, x: usize) -> bool
    ensures { result ≡ outside low high x }
{
    x < low || high < x
}

// The first of 2, 3 and 19 that fails.
#[tactic(auto, unfolding(checking::specs::Checking::first_failing))]
pub fn check_figures(count: usize, cabinet: Cabinet) -> Result<(), Refusal>
    ensures { refusal_number result ≡ first_failing (figure_checks count cabinet) }
{
    if MOST_JOBS < count {
        return Err(Refusal::TooManyJobs);
    }
    if outside(1, MOST_MODULES, cabinet.modules as usize) {
        return Err(Refusal::ModuleCount);
    }
    if LONGEST_CHANGEOVER < cabinet.changeover {
        return Err(Refusal::LongChangeover);
    }
    Ok(())
}

// Whether a record of `count` jobs has a field outside its range or an earlier-job bit at `count` or higher.
#[tactic(auto, using(crate::proofs::Bounds::left_of), unfolding(crate::specs::Checks::faulty))]
pub fn faulty(count: usize, job: Job) -> bool
    requires { count ≤ most_jobs }
    ensures { result ≡ faulty count job }
{
    let length = outside(1, LONGEST_LABEL, job.label_len as usize);
    let modules = outside(1, WIDEST_JOB, job.modules as usize);
    let minutes = outside(1, MOST_MINUTES, job.minutes as usize);
    let departure = outside(0, LAST_DEPARTURE, job.departure as usize);
    let arrival = outside(0, LAST_ARRIVAL as usize, job.arrival as usize);
    let earlier = job.earlier >> count != 0;
    length || (modules || (minutes || (departure || (arrival || earlier))))
}
