// The job table, what a sheet says of its jobs; the part-plan; and the prepared table, what is made of the jobs once.
#![tactic(auto)]

ghost use Rattle.std.specs.Prelude.{◌≡◌, ◌+◌, ◌<◌, min};
ghost use Rattle.figures.specs.Figures.{most_jobs, no_minute};

use figures::{MOST_JOBS, NO_MINUTE};

// ---- the job table

// What a sheet says of its jobs.
#[derive(Clone, Copy)]
pub struct Jobs {
    // The modules that each job needs, its minutes, and the first minute at which it may start.
    pub need: [u16; MOST_JOBS],
    pub minutes: [u16; MOST_JOBS],
    pub arrival: [u16; MOST_JOBS],
    // The jobs that must have ended before it starts, a set.
    pub earlier: [u32; MOST_JOBS],
    // How long it keeps its modules from others: its minutes and the changeover.
    pub kept: [u16; MOST_JOBS],
    // How many jobs there are.
    pub count: usize,
    // How many modules the cabinet has, and the minutes that a module rests between two jobs.
    pub modules: u16,
    pub changeover: u16,
}

impl Jobs {
    ghost use Rattle.tables.specs.Tables.{need_at, minutes_at, arrival_at, earlier_at, count_of, modules_of, changeover_of, kept_at};

    // How many jobs there are.
    pub fn count(&self) -> usize
        ensures { result ≡ count_of self.now }
    {
        self.count
    }

    // How many modules the cabinet has.
    pub fn modules(&self) -> u16
        ensures { result ≡ modules_of self.now }
    {
        self.modules
    }

    // The minutes that a module rests between two jobs.
    pub fn changeover(&self) -> u16
        ensures { result ≡ changeover_of self.now }
    {
        self.changeover
    }

    // The minute by which a plan that ends by minute t has given back all modules, or NO_MINUTE where that is no minute.
    pub fn closing(&self, t: u16) -> u16
        ensures { result ≡ min (t + changeover_of self.now) no_minute }
    {
        let close = (t as u32) + (self.changeover() as u32);
        if close < (NO_MINUTE as u32) {
            return close as u16;
        }
        NO_MINUTE
    }

    // The modules that job j needs.
    pub fn need(&self, j: usize) -> u16
        requires { j < most_jobs }
        ensures { result ≡ need_at self.now j }
    {
        self.need[j]
    }

    // The minutes of job j.
    pub fn minutes(&self, j: usize) -> u16
        requires { j < most_jobs }
        ensures { result ≡ minutes_at self.now j }
    {
        self.minutes[j]
    }

    // The first minute at which job j may start.
    pub fn arrival(&self, j: usize) -> u16
        requires { j < most_jobs }
        ensures { result ≡ arrival_at self.now j }
    {
        self.arrival[j]
    }

    // How long job j keeps its modules from others: its minutes and the changeover.
    pub fn kept(&self, j: usize) -> u16
        requires { j < most_jobs }
        ensures { result ≡ kept_at self.now j }
    {
        self.kept[j]
    }

    // The jobs that must have ended before job j starts, a set.
    pub fn earlier(&self, j: usize) -> u32
        requires { j < most_jobs }
        ensures { result ≡ earlier_at self.now j }
    {
        self.earlier[j]
    }
}

// ---- the part-plan

// A part-plan (P-15): some of the jobs placed, one after another.
#[derive(Clone, Copy)]
pub struct Part {
    // The end of each placed job by its number, 0 for the others.
    pub ends: [u16; MOST_JOBS],
    // The placed jobs sorted by their ends: the minutes from which their modules are free again, the changeover included, and how many
    // modules these are.
    pub until: [u16; MOST_JOBS],
    pub held: [u16; MOST_JOBS],
    // The jobs as they were placed.
    pub order: [u16; MOST_JOBS],
    // The last start, and the modules that are free then.
    pub last: u16,
    pub free: u16,
    // How many jobs are placed, and how many of those have given back their modules by the last start.
    pub placed: usize,
    pub gone: usize,
    // The unplaced jobs, a set, and the module-minutes that they keep from others.
    pub unplaced: u32,
    pub left: u32,
}

// ---- the prepared table

// What is made of the jobs once.
#[derive(Clone, Copy)]
pub struct Prepared {
    // The longest chain that begins with each job, and the minute before which it cannot start.
    pub tails: [u32; MOST_JOBS],
    pub heads: [u32; MOST_JOBS],
    // Three sets of related jobs for each job.
    pub related: [u32; RELATED_PLACES],
    // Five weightings: the worth of each job, and the most that can stand on so many modules.
    pub worth: [u32; WORTH_PLACES],
    pub most: [u32; MOST_PLACES],
    // The tables of the lanes.
    pub lanes: [u32; LANES_PLACES],
}

pub const RELATED_PLACES: usize = 60;

pub const WORTH_PLACES: usize = 100;

pub const MOST_PLACES: usize = 325;

pub const LANES_PLACES: usize = 1110;

// Nothing made yet.
pub const UNPREPARED: Prepared = Prepared {
    tails: [0; MOST_JOBS],
    heads: [0; MOST_JOBS],
    related: [0; RELATED_PLACES],
    worth: [0; WORTH_PLACES],
    most: [0; MOST_PLACES],
    lanes: [0; LANES_PLACES],
};
