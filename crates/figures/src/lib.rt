// Figures that several crates share, each once; specs/Figures.antt has a definition for each.
#![tactic(auto)]

// Jobs on a sheet, at most.
pub const MOST_JOBS: usize = 20;

// Modules of a cabinet, at most.
pub const MOST_MODULES: usize = 64;

// Minutes of a job, at most.
pub const MOST_MINUTES: usize = 1440;

// The minute by which every bus has arrived.
pub const LAST_ARRIVAL: u16 = 1440;

// Minutes that a module rests between two jobs, at most.
pub const LONGEST_CHANGEOVER: u16 = 30;

// The minute by which every list plan has ended: the last arrival, and then every job one after another with the longest rests between them.
pub const LAST_END: u16 = 30810;

// No minute: no start, no end, no target.
pub const NO_MINUTE: u16 = 65535;
