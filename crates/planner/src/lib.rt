// Planning: from a job sheet's bytes to the plan card of the plan that ends first, the one that the tie rule names.
#![tactic(auto)]

ghost use Rattle.std.specs.Prelude.{◌≡◌, ◌++◌, ◌≤◌, ltb, length, drop, replicate};
ghost use Rattle.figures.specs.Figures.{most_jobs};
ghost use Rattle.schedule.specs.Plan.{Circular};
ghost use Rattle.tables.specs.Tables.{sheet_of, count_of, Fit};
ghost use Rattle.card.specs.Card.{card_size};
ghost use Rattle.checking.specs.Refusals.{refusal_number};
ghost use Rattle.planner.specs.Planning.{plan_refusal, best_card, card_after, memory_after};

use card::{ROW_SIZE, TRAILER_SIZE};
use checking::Refusal;
use listing::Found;
use tables::Jobs;

// Whether a card of this room is too short.
pub fn too_short(jobs: &Jobs, room: usize) -> bool
    requires { count_of jobs.now ≤ most_jobs }
    ensures { result ≡ ltb room (card_size (count_of jobs.now)) }
{
    room < (ROW_SIZE + 1) * jobs.count() + TRAILER_SIZE
}

// Writes the card of the tie rule's plan at the front of the lent bytes, and leaves the working memory all zero.
pub fn write_best(card: &mut [u8], work: &mut [u8], jobs: &Jobs)
    requires { (Fit jobs.now)
        × ((¬ Circular (sheet_of jobs.now)) × (card_size (count_of jobs.now) ≤ length card.old)) }
    ensures card { card.new
        ≡ best_card (sheet_of jobs.now) ++ drop (card_size (count_of jobs.now)) card.old }
    ensures work { work.new ≡ replicate (length work.old) 0 }
{
    let best: Found = search::run(work, jobs);
    let order = best.order;
    card::write_plan(card, jobs, &order, best.end);
}

// Planning, or the first refusal of 1 to 10 and 19. Answered, the card of the tie rule's plan is at the front of the lent card and the
// working memory is all zero; refused, every lent byte is as before.
pub fn try_plan(sheet: &[u8], card: &mut [u8], work: &mut [u8]) -> Result<(), Refusal>
    ensures refusal { refusal_number result ≡ plan_refusal sheet.now (length card.old) }
    ensures card { card.new ≡ card_after sheet.now card.old }
    ensures work { work.new ≡ memory_after sheet.now (length card.old) work.old }
{
    let jobs = planable::front(sheet)?;
    if too_short(&jobs, card.len()) {
        return Err(Refusal::ShortBuffer);
    }
    write_best(card, work, &jobs);
    Ok(())
}

// The same as a number, for callers in C: 0, or that of the refusal.
pub fn plan(sheet: &[u8], card: &mut [u8], work: &mut [u8]) -> u32
    ensures refusal { result ≡ plan_refusal sheet.now (length card.old) }
    ensures card { card.new ≡ card_after sheet.now card.old }
    ensures work { work.new ≡ memory_after sheet.now (length card.old) work.old }
{
    checking::number(try_plan(sheet, card, work))
}
