// New figures for a running share desk: a limit, assured shares and ceilings for the same controllers. All holdings carry over.
#![tactic(auto)]

ghost use Rattle.std.specs.Prelude.{◌≡◌, eqb, length};
ghost use Rattle.desk.specs.Calls.{changed, answered};
ghost use Rattle.share_change.specs.Change.{carried_over, taken_over};

use checking::Refusal;
use desk::{Booked, Desk};

// Whether the list has a figure for each controller of the desk, and no more.
fn same_number(desk: Desk, list: &[u32]) -> bool
    ensures { result ≡ eqb (length list.now) desk.count }
{
    list.len() == desk.count as usize
}

// The holdings of the running desk on the figures of a new one.
fn carried_over(running: Desk, new: Desk) -> Desk
    ensures { result ≡ carried_over running new }
{
    let held = running.held;
    let assured = new.assured;
    let ceiling = new.ceiling;
    Desk {
        count: running.count,
        limit: new.limit,
        held,
        assured,
        ceiling,
    }
}

// The holdings of the running desk on the figures of a new one, if they fit there: 21 where some place is not right, 22 where the desk
// cannot be.
fn taken_over(running: Desk, new: Desk) -> Result<Desk, Refusal>
    ensures { answered running result ≡ taken_over running new }
{
    let next = carried_over(running, new);
    if !next.places_ok() {
        return Err(Refusal::HoldingAboveCeiling);
    }
    if !next.ok() {
        return Err(Refusal::HoldingsAboveLimit);
    }
    Ok(next)
}

// The desk with the new figures, or the first check that fails.
fn changed(desk: Desk, limit: u32, assured: &[u32], ceilings: &[u32]) -> Result<Desk, Refusal>
    ensures { answered desk result ≡ changed desk limit assured.now ceilings.now }
{
    if !desk.ok() {
        return Err(Refusal::NotThere);
    }
    if !same_number(desk, assured) {
        return Err(Refusal::ControllerCount);
    }
    let new = opening::new_desk(limit, assured, ceilings)?;
    taken_over(desk, new)
}

// Gives a running desk a new limit, new shares and new ceilings: checks 14 for the desk, then 11 to 13, 21 and 22. Refused, the desk is as
// before. The new figures are such as a desk opens with: opening checks 11 to 13 of them.
pub fn change(desk: Desk, limit: u32, assured: &[u32], ceilings: &[u32]) -> Booked
    ensures { result ≡ changed desk limit assured.now ceilings.now }
{
    desk.answer(changed(desk, limit, assured, ceilings))
}
