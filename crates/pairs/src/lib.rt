// What is asked of two jobs, by their figures alone: whether they are alike, may be swapped, or can run side by side.
#![tactic(auto)]

ghost use Rattle.std.specs.Prelude.{◌≡◌, ◌≢◌, true, false, cond, ◌+◌, ◌<◌};
ghost use Rattle.figures.specs.Figures.{most_jobs};
ghost use Rattle.bits.specs.Bits.{with_bit};
ghost use Rattle.pairs.specs.Pairs.{AreAlike, MaySwap};

use bits::Set;

// Whether the jobs are alike, and whatever waits for job 2 waits for job 1.
pub fn alike(need1: u16, need2: u16, minutes1: u16, minutes2: u16, later1: u32, later2: u32) -> bool
    ensures { result ≡ true → AreAlike need1 need2 minutes1 minutes2 later1 later2 }
{
    if need1 != need2 {
        return false;
    }
    if minutes1 != minutes2 {
        return false;
    }
    later2 & later1 == later2
}

// Whether the jobs have one width, and whatever waits for job 1 waits for job 2.
pub fn may_swap(need1: u16, need2: u16, later1: u32, later2: u32) -> bool
    ensures { result ≡ true → MaySwap need1 need2 later1 later2 }
{
    if need1 != need2 {
        return false;
    }
    later1 & later2 == later1
}

// Whether these are two jobs that the cabinet can run side by side.
pub fn fits_beside(need1: u16, need2: u16, modules: u16, i: usize, j: usize) -> bool
    ensures { result ≡ false → i ≢ j → modules < need1 + need2 }
{
    if i == j {
        return false;
    }
    (need1 as u32) + (need2 as u32) <= (modules as u32)
}

// The set with i, where a test has passed.
pub fn joined(set: u32, passed: bool, i: usize) -> u32
    requires { i < most_jobs }
    ensures { result ≡ cond passed (with_bit set i) set }
{
    if passed {
        return set.with(i);
    }
    set
}
