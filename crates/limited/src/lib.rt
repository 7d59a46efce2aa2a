// Planning with a limit on the part-plans that the search visits: planning's card, or the card of another valid plan and a minute before
// which no valid plan ends.
#![tactic(auto)]

ghost use Rattle.std.specs.Prelude.{◌≡◌, ◌≤◌, length, replicate};
ghost use Rattle.schedule.specs.Plan.{Circular};
ghost use Rattle.tables.specs.Tables.{sheet_of, count_of, Fit};
ghost use Rattle.card.specs.Card.{card_size};
ghost use Rattle.checking.specs.Refusals.{number_of};
ghost use Rattle.planable.specs.Planable.{sheet_in};
ghost use Rattle.planner.specs.Planning.{plan_refusal, memory_after};
ghost use Rattle.limited.specs.Limited.{refused_with, mark_of, LimitedCard};

use checking::Refusal;
use tables::Jobs;

// What is answered: refusal 0 with the end of the plan on the card, a minute before which no valid plan ends, and 1 where the card is
// planning's or else 0; or the number of the refusal with three 0.
#[repr(C)]
#[derive(Drop)]
pub struct Limited {
    pub refusal: u32,
    pub end: u16,
    pub bound: u16,
    pub exact: u32,
}

// A refusal.
fn refused(refusal: Refusal) -> Limited
    ensures { result ≡ refused_with (number_of refusal) }
{
    Limited {
        refusal: refusal.number(),
        end: 0,
        bound: 0,
        exact: 0,
    }
}

// 1 for yes, 0 for no.
fn mark(exact: bool) -> u32
    ensures { result ≡ mark_of exact }
{
    u32::from(exact)
}

// Writes the card of the order that the search gives within the limit at the front of the lent bytes, and leaves the working memory all
// zero.
fn write_within(card: &mut [u8], work: &mut [u8], limit: u64, jobs: &Jobs) -> Limited
    requires { (Fit jobs.now)
        × ((¬ Circular (sheet_of jobs.now)) × (card_size (count_of jobs.now) ≤ length card.old)) }
    ensures answer { LimitedCard (sheet_of jobs.now) card.old card.new limit result }
    ensures work { work.new ≡ replicate (length work.old) 0 }
{
    let best = search::run_within(work, limit, jobs);
    let order = best.order;
    card::write_plan(card, jobs, &order, best.end);
    Limited {
        refusal: 0,
        end: best.end,
        bound: best.bound,
        exact: mark(best.exact),
    }
}

// Planning with a limit: answered, or the first refusal of 1 to 10. Answered, the card of a valid plan is at the front of the lent card and
// the working memory is all zero; refused, every lent byte is as before. Which plan it is and which bound, the contract leaves free where
// the mark is 0.
pub fn plan_limited(sheet: &[u8], card: &mut [u8], work: &mut [u8], limit: u64) -> Limited
    ensures refused { ¬ (plan_refusal sheet.now (length card.old) ≡ 0)
        → (result ≡ refused_with (plan_refusal sheet.now (length card.old))) × (card.new ≡ card.old) }
    ensures answered { plan_refusal sheet.now (length card.old) ≡ 0
        → LimitedCard (sheet_in sheet.now) card.old card.new limit result }
    ensures work { work.new ≡ memory_after sheet.now (length card.old) work.old }
{
    let jobs = match planable::front(sheet) {
        Ok(jobs) => jobs,
        Err(refusal) => return refused(refusal),
    };
    if planner::too_short(&jobs, card.len()) {
        return refused(Refusal::ShortBuffer);
    }
    write_within(card, work, limit, &jobs)
}
