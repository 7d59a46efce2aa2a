// How many sets of jobs a part-plan can hold: those that have, with each job, all its earlier jobs.
#![tactic(auto)]

ghost use Rattle.std.specs.Prelude.{◌≡◌, ◌⊎◌, true, ◌<◌, ◌≤◌, ◌^◌};
ghost use Rattle.figures.specs.Figures.{most_jobs};
ghost use Rattle.bits.specs.Bits.{bit};
ghost use Rattle.tables.specs.Tables.{sheet_of, count_of};
ghost use Rattle.schedule.specs.Plan.{Circular};
ghost use Rattle.job_sets.specs.Sets.{closed_sets};
ghost use Rattle.job_sets.specs.Results.{Leaving, SetsAmong, sets_answer};

use bits::Set;
use figures::MOST_JOBS;
use tables::Jobs;

// Of two jobs the one that more of `left` follow or are followed by; of equals the first.
fn busier(
    before: &[u32; MOST_JOBS],
    behind: &[u32; MOST_JOBS],
    left: u32,
    first: usize,
    second: usize,
) -> usize
    requires { (first < most_jobs) × (second < most_jobs) }
    ensures { (result ≡ first) ⊎ (result ≡ second) }
{
    let a = (left & (before[first] | behind[first])).size();
    let b = (left & (before[second] | behind[second])).size();
    if a < b {
        return second;
    }
    first
}

// The job of `left` that most of it follow or are followed by.
fn busiest(before: &[u32; MOST_JOBS], behind: &[u32; MOST_JOBS], left: u32) -> usize
    requires { (0 < left) × (left < 2 ^ most_jobs) }
    ensures { (result < most_jobs) × (bit left result ≡ true) }
{
    let mut best = left.lowest();
    for j in left.without_lowest().members() {
        best = busier(before, behind, left, best, j);
    }
    best
}

// The jobs of `left` without j and a set of others.
fn leaving(left: u32, j: usize, others: u32) -> u32
    requires { j < most_jobs }
    ensures { Leaving left j others result }
{
    let rest = left.without(j);
    rest - (rest & others)
}

// The number of the sets among the jobs `left` that have, with each job, all of `left` that it follows. They are split on one job j: those
// without it have none of the jobs that follow it, and those with it have all that it follows.
fn sets_among(before: &[u32; MOST_JOBS], behind: &[u32; MOST_JOBS], left: u32) -> u32
    requires { left < 2 ^ most_jobs }
    ensures { SetsAmong left before.now behind.now result }
{
    if left == 0 {
        return 1;
    }
    let j = busiest(before, behind, left);
    let lower = leaving(left, j, behind[j]);
    let higher = leaving(left, j, before[j]);
    let absent = sets_among(before, behind, lower);
    if higher == lower {
        return 2 * absent;
    }
    absent + sets_among(before, behind, higher)
}

// The number of job sets of a table.
fn sets_of(jobs: &Jobs) -> u32
    requires { (count_of jobs.now ≤ most_jobs) × (¬ Circular (sheet_of jobs.now)) }
    ensures { result ≡ closed_sets (sheet_of jobs.now) }
{
    let marks = marks::marks_of(jobs);
    let before = marks.before;
    let behind = marks.behind;
    sets_among(&before, &behind, (1u32 << jobs.count()) - 1)
}

// The refusal, and the number of job sets of a sheet.
#[repr(C)]
#[derive(Drop)]
pub struct SetCount {
    pub refusal: u32,
    pub sets: u32,
}

// How many sets of jobs a part-plan of the sheet can hold, or the first refusal of 1 to 9 and 19.
pub fn set_count(sheet: &[u8]) -> SetCount
    ensures { result ≡ sets_answer sheet.now }
{
    match planable::front(sheet) {
        Ok(jobs) => SetCount {
            refusal: 0,
            sets: sets_of(&jobs),
        },
        Err(refusal) => SetCount {
            refusal: refusal.number(),
            sets: 0,
        },
    }
}
