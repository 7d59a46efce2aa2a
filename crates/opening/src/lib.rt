// Opening a share desk.
#![tactic(auto)]

ghost use Rattle.std.specs.Prelude.{◌≡◌, ℕ, ◌≤◌, ◌<◌, length, get_or};
ghost use Rattle.checking.specs.Refusals.{refusal_number};
ghost use Rattle.desk.specs.Desk.{most_power, most_controllers, padded, no_desk};
ghost use Rattle.desk.specs.Checks.{wrong_lengths, wrong_pair, some_pair_wrong, wrong_figures, shares_in_all};
ghost use Rattle.desk.specs.Calls.{open_refusal, opened, opened_by};

use checking::Refusal;
use desk::{Desk, FEWEST_CONTROLLERS, MOST_CONTROLLERS, MOST_POWER, Opened, in_range};

// The lists differ in length, or no desk has so many controllers.
fn wrong_lengths(assured: &[u32], ceilings: &[u32]) -> bool
    ensures { result ≡ wrong_lengths assured.now ceilings.now }
{
    assured.len() != ceilings.len()
        || !in_range(FEWEST_CONTROLLERS, MOST_CONTROLLERS, assured.len())
}

// An assured share exceeds its ceiling, or the ceiling exceeds the limit.
fn wrong_pair(limit: u32, assured: u32, ceiling: u32) -> bool
    ensures { result ≡ wrong_pair limit assured ceiling }
{
    ceiling < assured || limit < ceiling
}

// Whether some share and ceiling of the two lists, which are of one length, are such a pair.
fn some_pair_wrong(limit: u32, assured: &[u32], ceilings: &[u32]) -> bool
    requires { length assured.now ≡ length ceilings.now }
    ensures { result ≡ some_pair_wrong limit assured.now ceilings.now }
{
    for (share, ceiling) in assured.iter().zip(ceilings) {
        if wrong_pair(limit, *share, *ceiling) {
            return true;
        }
    }
    false
}

// The limit is none of a desk, or a pair is wrong.
fn wrong_figures(limit: u32, assured: &[u32], ceilings: &[u32]) -> bool
    requires { length assured.now ≡ length ceilings.now }
    ensures { result ≡ wrong_figures limit assured.now ceilings.now }
{
    !in_range(1, MOST_POWER as usize, limit as usize) || some_pair_wrong(limit, assured, ceilings)
}

// The shares, of which each is within the largest limit, added up.
fn shares_in_all(assured: &[u32]) -> u32
    requires { (length assured.now ≤ most_controllers) × ((i : ℕ) → i < length assured.now → get_or assured.now i 0 ≤ most_power) }
    ensures { result ≡ shares_in_all assured.now }
{
    let mut total = 0;
    for share in assured {
        total += *share;
    }
    total
}

// Checks 11 to 13.
fn check_opening(limit: u32, assured: &[u32], ceilings: &[u32]) -> Result<(), Refusal>
    ensures { refusal_number result ≡ open_refusal limit assured.now ceilings.now }
{
    if wrong_lengths(assured, ceilings) {
        return Err(Refusal::ControllerCount);
    }
    if wrong_figures(limit, assured, ceilings) {
        return Err(Refusal::WrongShares);
    }
    if limit < shares_in_all(assured) {
        return Err(Refusal::SharesAboveLimit);
    }
    Ok(())
}

// The list's figures, and 0 in the places past its end.
fn places(list: &[u32]) -> [u32; MOST_CONTROLLERS]
    requires { length list.now ≤ most_controllers }
    ensures { result ≡ padded list.now }
{
    let mut all = [0; MOST_CONTROLLERS];
    all[..list.len()].copy_from_slice(list);
    all
}

// The desk of zeros that a refused opening answers.
fn no_desk() -> Desk
    ensures { result ≡ no_desk }
{
    let none = [0; MOST_CONTROLLERS];
    Desk {
        count: 0,
        limit: 0,
        held: none,
        assured: none,
        ceiling: none,
    }
}

// The new desk, or the first of checks 11 to 13 that fails.
pub fn new_desk(limit: u32, assured: &[u32], ceilings: &[u32]) -> Result<Desk, Refusal>
    ensures { opened_by result ≡ opened limit assured.now ceilings.now }
{
    check_opening(limit, assured, ceilings)?;
    let shares = places(assured);
    let tops = places(ceilings);
    Ok(Desk {
        count: assured.len() as u32,
        limit,
        held: [0; MOST_CONTROLLERS],
        assured: shares,
        ceiling: tops,
    })
}

// Opens a desk with the limit, and for each controller its assured share and its ceiling: checks 11 to 13.
pub fn open(limit: u32, assured: &[u32], ceilings: &[u32]) -> Opened
    ensures { result ≡ opened limit assured.now ceilings.now }
{
    match new_desk(limit, assured, ceilings) {
        Ok(desk) => Opened { refusal: 0, desk },
        Err(refusal) => Opened {
            refusal: refusal.number(),
            desk: no_desk(),
        },
    }
}
