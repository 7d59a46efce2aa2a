// The least module count with which some valid plan ends by a minute. What a count serves, every larger one serves, so that halving finds it.
#![tactic(auto)]

ghost use Rattle.std.specs.Prelude.{◌≡◌, ◌-◌, ◌<◌, ◌≤◌, ltb};
ghost use Rattle.figures.specs.Figures.{most_modules};
ghost use Rattle.schedule.specs.Cabinets.{with_modules, ends_by};
ghost use Rattle.tables.specs.Tables.{sheet_of};
ghost use Rattle.cabinets.specs.Counts.{least_count, Askable, Holds};

use entries::GROUP;
use figures::MOST_MODULES;
use tables::Jobs;

// The largest cabinet.
pub const LARGEST: u16 = MOST_MODULES as u16;

// Working memory on the stack, for the question that is asked before lent memory may be written: 16 groups of part-plans.
pub const OWN_MEMORY: usize = 16 * GROUP;

// The counts from low to high.
#[derive(Drop)]
pub struct Between {
    pub low: u16,
    pub high: u16,
}

// Whether some valid plan in a cabinet of this many modules ends by the minute.
fn serves(memory: &mut [u8], modules: u16, by: u16, jobs: &Jobs) -> bool
    requires { (Askable jobs.now) × ((0 < modules) × (modules ≤ most_modules)) }
    ensures { result ≡ ends_by (with_modules (sheet_of jobs.now) modules) by }
{
    let table = job_table::for_cabinet(jobs, modules);
    if job_table::over_wide(&table) {
        return false;
    }
    search::ends_by(memory, by, &table)
}

// Whether no count serves: the largest does not. Asked without lent memory, so that a call may still be refused.
pub fn none_serves(by: u16, jobs: &Jobs) -> bool
    requires { Askable jobs.now }
    ensures { result ≡ ltb most_modules (least_count (sheet_of jobs.now) by) }
{
    let mut own = [0u8; OWN_MEMORY];
    !serves(&mut own, LARGEST, by, jobs)
}

// The lower half of the counts where its highest serves, else the upper half.
fn halved(memory: &mut [u8], between: Between, by: u16, jobs: &Jobs) -> Between
    requires { (Askable jobs.now) × ((Holds (sheet_of jobs.now) by between) × (between.low < between.high)) }
    ensures holds { Holds (sheet_of jobs.now) by result }
    ensures fewer { result.high - result.low < between.high - between.low }
{
    let middle = (between.low + between.high) / 2;
    if serves(memory, middle, by, jobs) {
        return Between {
            low: between.low,
            high: middle,
        };
    }
    Between {
        low: middle + 1,
        high: between.high,
    }
}

// The least count that serves, where one does.
pub fn least_count(memory: &mut [u8], by: u16, jobs: &Jobs) -> u16
    requires { (Askable jobs.now) × (least_count (sheet_of jobs.now) by ≤ most_modules) }
    ensures { result ≡ least_count (sheet_of jobs.now) by }
{
    let mut between = Between {
        low: 1,
        high: LARGEST,
    };
    while between.low < between.high {
        between = halved(memory, between, by, jobs);
    }
    between.low
}
