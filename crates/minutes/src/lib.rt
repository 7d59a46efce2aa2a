// The calls of a plan that fall due in a minute, hand-backs before claims, made together on a desk; and the last minute that has one.
#![tactic(auto)]

ghost use Rattle.std.specs.Prelude.{◌≡◌, cond, ◌+◌, ◌*◌, ◌≤◌, ◌<◌, length};
ghost use Rattle.figures.specs.Figures.{most_jobs};
ghost use Rattle.tables.specs.Tables.{sheet_of, count_of, need_at};
ghost use Rattle.card.specs.Card.{row_size};
ghost use Rattle.card.specs.Decoding.{plan_on};
ghost use Rattle.card_check.specs.Test.{Sized};
ghost use Rattle.desk.specs.Calls.{claim, hand_back};
ghost use Rattle.assurance.specs.Following.{call_of, minute};
ghost use Rattle.assurance.specs.Minutes.{due_at, due_calls, last_minute};
ghost use Rattle.minutes.specs.Together.{answer_to, together, event, due_of, PowersFit};

use desk::{Booked, Desk};
use tables::Jobs;

// Who calls, for modules of what size in hundreds of watts, and in which minute.
#[derive(Clone, Copy)]
pub struct Turn {
    pub controller: u32,
    pub size: u32,
    pub minute: u32,
}

// The minute at which job j's modules are claimed, or handed back.
fn due_minute(jobs: &Jobs, card: &[u8], j: usize, claiming: bool) -> u32
    requires { (j < most_jobs) × (row_size * j + row_size ≤ length card.now) }
    ensures { (result ≡ minute (sheet_of jobs.now) (plan_on card.now) (event claiming j)) × (result < 196608) }
{
    if claiming {
        card_check::start(card, j)
    } else {
        card_check::finish(jobs, card, j) + jobs.changeover() as u32
    }
}

// Claims power, or hands it back. The desk's calls answer numbers, and so do these.
fn book(desk: Desk, controller: u32, power: u32, claiming: bool) -> Booked
    ensures { result ≡ answer_to desk (cond claiming (claim controller power) (hand_back controller power)) }
{
    if claiming {
        desk.claim(controller, power)
    } else {
        desk.hand_back(controller, power)
    }
}

// Makes job j's call, if it falls due.
fn book_if_due(desk: Desk, jobs: &Jobs, card: &[u8], turn: Turn, j: usize, claiming: bool) -> Booked
    requires { (Sized jobs.now card.now) × ((j < count_of jobs.now) × (PowersFit jobs.now turn.size)) }
    ensures { result
        ≡ together desk (due_at (sheet_of jobs.now) (plan_on card.now) turn.size turn.controller turn.minute
        (event claiming j)) }
{
    if due_minute(jobs, card, j, claiming) != turn.minute {
        return Booked { refusal: 0, desk };
    }
    let power = jobs.need(j) as u32 * turn.size;
    book(desk, turn.controller, power, claiming)
}

// Makes the claims that fall due, or the hand-backs, in job order.
fn book_all(desk: Desk, jobs: &Jobs, card: &[u8], turn: Turn, claiming: bool) -> Booked
    requires { (Sized jobs.now card.now) × (PowersFit jobs.now turn.size) }
    ensures { result
        ≡ together desk (due_of (sheet_of jobs.now) (plan_on card.now) turn claiming (count_of jobs.now)) }
{
    let count = jobs.count();
    let mut at = desk;
    for j in 0..count {
        let booked = book_if_due(at, jobs, card, turn, j, claiming);
        let refusal = booked.refusal;
        if refusal != 0 {
            return Booked { refusal, desk };
        }
        at = booked.desk;
    }
    Booked {
        refusal: 0,
        desk: at,
    }
}

// Makes the calls of the turn's minute: the hand-backs and then the claims that fall due, or, if the desk refuses one, none.
pub fn book_minute(desk: Desk, jobs: &Jobs, card: &[u8], turn: Turn) -> Booked
    requires { (Sized jobs.now card.now) × (PowersFit jobs.now turn.size) }
    ensures { result
        ≡ together desk (due_calls (sheet_of jobs.now) (plan_on card.now) turn.size turn.controller turn.minute) }
{
    let handed = book_all(desk, jobs, card, turn, false);
    let refusal = handed.refusal;
    if refusal != 0 {
        return Booked { refusal, desk };
    }
    let claimed = book_all(handed.desk, jobs, card, turn, true);
    let refused = claimed.refusal;
    if refused != 0 {
        return Booked {
            refusal: refused,
            desk,
        };
    }
    claimed
}

// The first minute behind the last hand-back, 0 without jobs.
pub fn last_minute(jobs: &Jobs, card: &[u8]) -> u32
    requires { Sized jobs.now card.now }
    ensures { result ≡ last_minute (sheet_of jobs.now) (plan_on card.now) }
{
    let count = jobs.count();
    let mut last: u32 = 0;
    for j in 0..count {
        last = last.max(due_minute(jobs, card, j, false) + 1);
    }
    last
}
