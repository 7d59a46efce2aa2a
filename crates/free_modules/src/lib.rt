// Sets of modules: those that are busy, and the lowest that are free.
#![tactic(auto)]

ghost use Rattle.std.specs.Prelude.{◌≡◌, cond, not, ◌&&◌, ◌<◌, ◌≤◌, ltb};
ghost use Rattle.std.specs.Int.Bits.{bit_or};
ghost use Rattle.std.specs.Int.Count.{ones};
ghost use Rattle.counting.specs.Counting.{only};
ghost use Rattle.bits.specs.Bits.{bit, with_bit};
ghost use Rattle.free_modules.specs.Lowest.{lowest_outside};

use bits::Set;

// The set, with the modules of a job that keeps them until after minute t.
pub fn with_busy(set: u64, modules: u64, until: u16, t: u16) -> u64
    ensures { result ≡ bit_or set (only (ltb t until) modules) }
{
    if t < until { set | modules } else { set }
}

// The set with module m, where m is not busy and modules are still wanted.
fn take_module(set: u64, busy: u64, m: usize, want: u16) -> u64
    requires { m < 64 }
    ensures { result ≡ cond (not (bit busy m) && ltb (ones set) want) (with_bit set m) set }
{
    if !busy.has(m) && set.size() < u32::from(want) {
        set.with(m)
    } else {
        set
    }
}

// The lowest-numbered modules that are not busy, as many as are wanted.
pub fn lowest_free(busy: u64, modules: u16, want: u16) -> u64
    requires { modules ≤ 64 }
    ensures { result ≡ lowest_outside busy modules want }
{
    let mut set = 0;
    for m in 0..usize::from(modules) {
        set = take_module(set, busy, m, want);
    }
    set
}
