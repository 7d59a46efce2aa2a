// Which sums the widths of some of the jobs that are left have, and how many of the free modules such jobs can fill.
#![tactic(auto)]

ghost use Rattle.std.specs.Prelude.{◌≡◌, true, ℕ, ◌+◌, ◌<◌};
ghost use Rattle.bits.specs.Bits.{bit};
ghost use Rattle.tables.specs.Tables.{Fit};
ghost use Rattle.widths.specs.Widths.{limit, WidthsOf, filled_of};

use bits::Set;
use tables::Jobs;

// The sums that one number has as members are those below 64.
const LIMIT: u16 = 64;

// The sums, and those with one width more.
fn with_width(sums: u64, width: u16) -> u64
    ensures { (s : ℕ) → bit sums s ≡ true → s < limit → (bit result s ≡ true) × (s + width < limit → bit result (s + width) ≡ true) }
{
    if LIMIT <= width {
        return sums;
    }
    sums | (sums << width)
}

// The sums of the widths of the jobs of a set.
pub fn sums_of(jobs: &Jobs, set: u32) -> u64
    requires { Fit jobs.now }
    ensures { WidthsOf jobs.now set result }
{
    let mut sums: u64 = 1;
    for j in set.below(jobs.count()).members() {
        sums = with_width(sums, jobs.need(j));
    }
    sums
}

// The most of so many free modules that are filled by a sum.
pub fn filled(sums: u64, free: u16) -> u16
    ensures { result ≡ filled_of sums free }
{
    if LIMIT <= free {
        return free;
    }
    let mut s = free;
    while 0 < s {
        if sums.has(s as usize) {
            return s;
        }
        s -= 1;
    }
    0
}
