// Sums, counts, the largest value and tests over the numbers below n: definitions and laws; and the product of two numbers.
#![tactic(auto)]

ghost use Rattle.std.specs.Prelude.{◌≡◌, ◌*◌};

// The product of two numbers. A function of its own, since a proof cites the product and need not show again that it fits.
pub fn times(a: u16, b: u16) -> u32
    ensures { result ≡ a * b }
{
    u32::from(a) * u32::from(b)
}
