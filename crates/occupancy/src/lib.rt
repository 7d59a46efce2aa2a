// The module-minutes that jobs occupy, and their share of the cabinet's.
#![tactic(auto)]

ghost use Rattle.std.specs.Prelude.{◌≡◌, ◌*◌, ◌<◌, ◌^◌};
ghost use Rattle.tables.specs.Tables.{sheet_of, Fit};
ghost use Rattle.occupancy.specs.Occupancy.{work_in, share_of};

use tables::Jobs;

// What is answered: refusal 0 with the per mille and the remainder, or the number of the refusal with two 0.
#[repr(C)]
#[derive(Drop)]
pub struct Usage {
    pub refusal: u32,
    pub per_mille: u32,
    pub remainder: u32,
}

// The module-minutes that the jobs occupy in every plan.
pub fn work_of(jobs: &Jobs) -> u32
    requires { Fit jobs.now }
    ensures { result ≡ work_in (sheet_of jobs.now) }
{
    let count = jobs.count();
    let mut total: u32 = 0;
    for i in 0..count {
        total += counting::times(jobs.need(i), jobs.minutes(i));
    }
    total
}

// The per mille of the cabinet's module-minutes that are occupied, rounded down, and what it leaves.
pub fn share(occupied: u32, cabinet: u32) -> Usage
    requires { (1000 * occupied < 2 ^ 32) × (0 < cabinet) }
    ensures { result ≡ share_of occupied cabinet }
{
    let thousand = 1000 * occupied;
    Usage {
        refusal: 0,
        per_mille: thousand / cabinet,
        remainder: thousand % cabinet,
    }
}
