// Random moves from order to order.
#![tactic(auto)]

ghost use Rattle.std.specs.Prelude.{◌≡◌, ◌<◌, ◌≤◌};
ghost use Rattle.figures.specs.Figures.{most_jobs};
ghost use Rattle.moves.specs.Moves.{exchanged_at};

use figures::MOST_JOBS;

// ---- random numbers

// The random number after this one.
pub fn next_seed(seed: u32) -> u32
    ensures { result < 2147483648 }
{
    (((seed as u64) * 1103515245 + 12345) % 2147483648) as u32
}

// One of the numbers below n, by a random number.
pub fn drawn(seed: u32, n: usize) -> usize
    requires { 0 < n }
    ensures { result < n }
{
    ((seed / 65536) as usize) % n
}

// ---- moves

// The order with what stands at two places exchanged.
fn exchanged(order: &[u8; MOST_JOBS], a: usize, b: usize) -> [u8; MOST_JOBS]
    requires { (a < most_jobs) × (b < most_jobs) }
    ensures { result ≡ exchanged_at order.now a b }
{
    let mut next = *order;
    next[a] = order[b];
    next[b] = order[a];
    next
}

// The order with what stands at place a moved on to place b.
fn moved_on(order: &[u8; MOST_JOBS], a: usize, b: usize) -> [u8; MOST_JOBS]
    requires { (a ≤ b) × (b < most_jobs) }
{
    let mut next = *order;
    let taken = order[a];
    next[a..b].copy_from_slice(&order[a + 1..b + 1]);
    next[b] = taken;
    next
}

// The order with what stands at place b moved back to place a.
fn moved_back(order: &[u8; MOST_JOBS], a: usize, b: usize) -> [u8; MOST_JOBS]
    requires { (a ≤ b) × (b < most_jobs) }
{
    let mut next = *order;
    let taken = order[b];
    next[a + 1..b + 1].copy_from_slice(&order[a..b]);
    next[a] = taken;
    next
}

// Of eight moves, so many take one job to another place; the others exchange two.
const TAKEN: u32 = 5;

// The order after a move between two places: which one, a random number says.
pub fn moved(order: &[u8; MOST_JOBS], seed: u32, a: usize, b: usize) -> [u8; MOST_JOBS]
    requires { (a < most_jobs) × (b < most_jobs) }
{
    if TAKEN <= seed / 65536 % 8 {
        return exchanged(order, a, b);
    }
    if a < b {
        return moved_on(order, a, b);
    }
    moved_back(order, b, a)
}

// How many module-minutes more may lie behind the target after a move, by a random number: seldom many, 2 for each module at most, and half
// as often twice as many.
pub fn margin(modules: u16, seed: u32) -> u32 {
    (modules as u32) * 512 / (seed / 524288 + 256)
}
