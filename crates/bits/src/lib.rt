// Sets of small numbers in one word: a u32 holds jobs, a u64 modules. Member i is bit i, and bit 0 is the lowest.
#![tactic(auto)]

ghost use Rattle.std.proofs.Common.{rules};
ghost use Rattle.std.specs.Prelude.{◌≡◌, true, false, ℕ, ◌-◌, ◌*◌, ◌%◌, ◌^◌, ◌<◌, ◌≤◌, refl, eqb};
ghost use Rattle.std.specs.Int.Bits.{bit_and, bit_or};
ghost use Rattle.std.specs.Int.Count.{ones};
ghost use Rattle.std.specs.Iterator.{at_most};
ghost use Rattle.bits.specs.Bits.{bit, with_bit, without_bit, set_of, LowestFirst};

use std::ops::{BitAnd, BitOr, Sub};

// A word as a set of the numbers below its width. Each size of word says what its few steps (`up` to `lowest`) are and
// proves the laws at the end; the rest is written and proved once.
pub trait Set: Copy
    + Drop
    + BitAnd<Self, Output = Self>
    + BitOr<Self, Output = Self>
    + Sub<Self, Output = Self> {
    // The word as a number.
    ghost number: { Self → ℕ };

    // How many numbers can be members.
    ghost width: { ℕ };

    ghost ONE: { Self };

    // The set of 0 alone.
    const ONE: Self;

    // The members i higher, those that stay below the width.
    fn up(self, i: usize) -> Self
        requires { i < width }
        ensures { number result ≡ number self * 2 ^ i % 2 ^ width };

    // Whether i is a member.
    fn has(self, i: usize) -> bool
        requires { i < width }
        ensures { result ≡ bit (number self) i };

    // Whether the set has no member.
    fn is_empty(self) -> bool
        ensures { result ≡ eqb (number self) 0 };

    // How many members the set has.
    fn size(self) -> u32
        ensures { result ≡ ones (number self) };

    // The lowest member of a set that is not empty.
    fn lowest(self) -> usize
        requires { 0 < number self }
        ensures { (result < width) × (bit (number self) result ≡ true) × ((i : ℕ) → i < result → bit (number self) i ≡ false) };

    // The set with i.
    final fn with(self, i: usize) -> Self
        requires { i < width }
        ensures { number result ≡ with_bit (number self) i }
    {
        self | Self::ONE.up(i)
    }

    // The set without i.
    final fn without(self, i: usize) -> Self
        requires { i < width }
        ensures { number result ≡ without_bit (number self) i }
    {
        self - (self & Self::ONE.up(i))
    }

    // The members of a set that is not empty but the lowest.
    final fn without_lowest(self) -> Self
        requires { 0 < number self }
        ensures { (k : ℕ) → bit (number self) k ≡ true → ((i : ℕ) → i < k → bit (number self) i ≡ false) → number result ≡ without_bit (number self) k }
    {
        self & (self - Self::ONE)
    }

    // The members below n.
    final fn below(self, n: usize) -> Self
        requires { n < width }
        ensures { number result ≡ set_of n (bit (number self)) }
    {
        self & (Self::ONE.up(n) - Self::ONE)
    }

    // The members, the lowest first.
    final fn members(self) -> Walk<Self>
        ensures { result.left ≡ self }
    {
        Walk { left: self }
    }

    // What an implementation proves: `ONE` is 1, and `|`, `&` and `-` do to words what they do to numbers.
    ghost one_is: { number ONE ≡ 1 };

    ghost can_or: { (x y : Self) → Self.can_bitor x y };

    ghost or_is: { (x y r : Self) → Self.bitor_gives x y r → number r ≡ bit_or (number x) (number y) };

    ghost can_and: { (x y : Self) → Self.can_bitand x y };

    ghost and_is: { (x y r : Self) → Self.bitand_gives x y r → number r ≡ bit_and (number x) (number y) };

    ghost can_take: { (x y : Self) → number y ≤ number x → Self.can_sub x y };

    ghost take_is: { (x y r : Self) → Self.sub_gives x y r → number r ≡ number x - number y };
}

// A walk over the members of a set.
#[derive(Drop)]
pub struct Walk<S> {
    // The members that are still to come.
    pub left: S,
}

impl<S: Set> Iterator for Walk<S> {
    type Item = usize;

    ghost next_gives = { λ s r t. LowestFirst S.width (S.number s.left) r (S.number t.left) };

    ghost remaining = { λ s. at_most (ones (S.number s.left)) };

    fn next(&mut self) -> Option<usize> {
        if self.left.is_empty() {
            return None;
        }
        let j = self.left.lowest();
        self.left = self.left.without_lowest();
        Some(j)
    }
}

impl Set for u32 {
    ghost number = { λ x. x };

    ghost width = { 32 };

    ghost ONE = { 1 };

    const ONE: u32 = 1;

    fn up(self, i: usize) -> u32 {
        self << i
    }

    fn has(self, i: usize) -> bool {
        (self >> i) % 2 == 1
    }

    fn is_empty(self) -> bool {
        self == 0
    }

    fn size(self) -> u32 {
        u32::count_ones(self)
    }

    fn lowest(self) -> usize {
        u32::trailing_zeros(self) as usize
    }

    ghost one_is = { refl };

    ghost can_or = { Prim.search rules };

    ghost or_is = { λ x y r e. e };

    ghost can_and = { Prim.search rules };

    ghost and_is = { λ x y r e. e };

    ghost can_take = { λ x y l. l };

    ghost take_is = { λ x y r e. e };
}

impl Set for u64 {
    ghost number = { λ x. x };

    ghost width = { 64 };

    ghost ONE = { 1 };

    const ONE: u64 = 1;

    fn up(self, i: usize) -> u64 {
        self << i
    }

    fn has(self, i: usize) -> bool {
        (self >> i) % 2 == 1
    }

    fn is_empty(self) -> bool {
        self == 0
    }

    fn size(self) -> u32 {
        u64::count_ones(self)
    }

    fn lowest(self) -> usize {
        u64::trailing_zeros(self) as usize
    }

    ghost one_is = { refl };

    ghost can_or = { Prim.search rules };

    ghost or_is = { λ x y r e. e };

    ghost can_and = { Prim.search rules };

    ghost and_is = { λ x y r e. e };

    ghost can_take = { λ x y l. l };

    ghost take_is = { λ x y r e. e };
}
