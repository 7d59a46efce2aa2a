// The job table of a reading, and whether some job is too wide for the cabinet.
#![tactic(auto)]

ghost use Rattle.std.specs.Prelude.{◌≡◌, ◌≤◌, ◌<◌, length};
ghost use Rattle.figures.specs.Figures.{most_jobs};
ghost use Rattle.schedule.specs.Plan.{over_wide};
ghost use Rattle.tables.specs.Tables.{sheet_of, count_of};
ghost use Rattle.job_table.specs.Table.{for_cabinet, SumsFit, TableOf};

use figures::MOST_JOBS;
use sheet::Reading;
use tables::Jobs;

// The job table of a reading.
pub fn table_of(found: Reading) -> Jobs
    requires { (length found.jobs ≡ most_jobs) × ((found.count ≤ most_jobs) × (SumsFit found)) }
    ensures { TableOf found result }
{
    let mut table = Jobs {
        need: [0; MOST_JOBS],
        minutes: [0; MOST_JOBS],
        arrival: [0; MOST_JOBS],
        earlier: [0; MOST_JOBS],
        kept: [0; MOST_JOBS],
        count: found.count,
        modules: found.modules,
        changeover: found.changeover,
    };
    for j in 0..found.count {
        let job = found.jobs[j];
        table.need[j] = job.modules as u16;
        table.minutes[j] = job.minutes;
        table.arrival[j] = job.arrival;
        table.earlier[j] = job.earlier;
        table.kept[j] = job.minutes + found.changeover;
    }
    table
}

// The same jobs in a table for a cabinet of this many modules.
pub fn for_cabinet(jobs: &Jobs, modules: u16) -> Jobs
    ensures { result ≡ for_cabinet jobs.now modules }
{
    let mut table = *jobs;
    table.modules = modules;
    table
}

// Whether some job needs more modules than there are.
pub fn over_wide(jobs: &Jobs) -> bool
    requires { count_of jobs.now ≤ most_jobs }
    ensures { result ≡ over_wide (sheet_of jobs.now) }
{
    let count = jobs.count();
    let modules = jobs.modules();
    for j in 0..count {
        if modules < jobs.need(j) {
            return true;
        }
    }
    false
}
