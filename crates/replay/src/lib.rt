// The plan of an order, job by job: each job's start, end and modules.
#![tactic(auto)]

ghost use Rattle.std.specs.Prelude.{◌≡◌, ◌+◌, ◌<◌, ◌≤◌, take};
ghost use Rattle.figures.specs.Figures.{most_jobs};
ghost use Rattle.schedule.specs.ListPlan.{Order};
ghost use Rattle.tables.specs.Tables.{sheet_of, minutes_at, count_of, changeover_of, Fit};
ghost use Rattle.replay.specs.Slots.{with_slot, busy_at, Ending, with_job, Replayed};

use figures::MOST_JOBS;
use tables::Jobs;

// Each job's start, end and module set, at the job's place: three lists, as the laws of the card and of the slacks read them.
#[derive(Clone, Copy)]
pub struct Slots {
    pub start: [u16; MOST_JOBS],
    pub end: [u16; MOST_JOBS],
    pub modules: [u64; MOST_JOBS],
}

// The slots with one for job j.
fn with_slot(slots: Slots, j: usize, start: u16, end: u16, modules: u64) -> Slots
    requires { j < most_jobs }
    ensures { result ≡ with_slot slots j start end modules }
{
    let mut next = slots;
    next.start[j] = start;
    next.end[j] = end;
    next.modules[j] = modules;
    next
}

// The modules of the jobs that run or rest at minute t.
fn busy_at(slots: Slots, count: usize, rest: u16, t: u16) -> u64
    requires { (count ≤ most_jobs) × (Ending slots count rest) }
    ensures { result ≡ busy_at slots count rest t }
{
    let mut set = 0;
    for i in 0..count {
        set = free_modules::with_busy(set, slots.modules[i], slots.end[i] + rest, t);
    }
    set
}

// The slots with job j placed from minute `start` on, on the lowest of the modules that are free then.
fn with_job(slots: Slots, jobs: &Jobs, j: usize, start: u16) -> Slots
    requires { ((Fit jobs.now) × (Ending slots (count_of jobs.now) (changeover_of jobs.now)))
        × ((j < most_jobs) × (start + minutes_at jobs.now j < 65536)) }
    ensures { result ≡ with_job jobs.now slots j start }
{
    let want = jobs.need(j);
    let lasts = jobs.minutes(j);
    let rest = jobs.changeover();
    let busy = busy_at(slots, jobs.count(), rest, start);
    let set = free_modules::lowest_free(busy, jobs.modules(), want);
    with_slot(slots, j, start, start + lasts, set)
}

// The slots of the list plan of the order.
pub fn replay(jobs: &Jobs, order: &[u8; MOST_JOBS]) -> Slots
    requires { (Fit jobs.now) × (Order (sheet_of jobs.now) (take (count_of jobs.now) order.now)) }
    ensures { Replayed (sheet_of jobs.now) (take (count_of jobs.now) order.now) result }
{
    let count = jobs.count();
    let mut slots = Slots {
        start: [0u16; MOST_JOBS],
        end: [0u16; MOST_JOBS],
        modules: [0u64; MOST_JOBS],
    };
    let mut part = placement::first_part(jobs);
    for k in 0..count {
        let j = usize::from(order[k]);
        let start = placement::start_of(jobs, &part, j);
        slots = with_job(slots, jobs, j, start);
        placement::place(&mut part, jobs, j, start);
    }
    slots
}
