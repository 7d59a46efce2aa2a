// How large a cabinet: the least module count with which some valid plan ends by a minute, and planning's card for that count.
#![tactic(auto)]

ghost use Rattle.std.specs.Prelude.{◌≡◌, ◌++◌, ◌≤◌, length, drop, replicate};
ghost use Rattle.figures.specs.Figures.{most_modules};
ghost use Rattle.schedule.specs.Cabinets.{with_modules};
ghost use Rattle.tables.specs.Tables.{sheet_of, count_of};
ghost use Rattle.job_table.specs.Table.{FitJobs};
ghost use Rattle.card.specs.Card.{card_size};
ghost use Rattle.checking.specs.Refusals.{number_of, refusal_number};
ghost use Rattle.planner.specs.Planning.{best_card};
ghost use Rattle.cabinets.specs.Counts.{least_count, Askable};
ghost use Rattle.sizing.specs.Sizing.{count_refusal, size_answer, size_card_after, size_work_after};

use checking::Refusal;
use tables::Jobs;

// What is answered: refusal 0 with the count, or the number of the refusal with 0.
#[repr(C)]
#[derive(Drop)]
pub struct Sized {
    pub refusal: u32,
    pub modules: u16,
}

// What a refused call answers.
fn refused(refusal: Refusal) -> Sized
    ensures { (result.refusal ≡ number_of refusal) × (result.modules ≡ 0) }
{
    Sized {
        refusal: refusal.number(),
        modules: 0,
    }
}

// The first of 9, 20 and 10 that fails, of a sheet that reads. No lent memory is written.
fn check_count(jobs: &Jobs, by: u16, room: usize) -> Result<(), Refusal>
    requires { FitJobs jobs.now }
    ensures { refusal_number result ≡ count_refusal (sheet_of jobs.now) by room }
{
    if circles::circular(jobs) {
        return Err(Refusal::Circular);
    }
    if cabinets::none_serves(by, jobs) {
        return Err(Refusal::NoCountServes);
    }
    if planner::too_short(jobs, room) {
        return Err(Refusal::ShortBuffer);
    }
    Ok(())
}

// The least count, and its card at the front of the lent bytes; the working memory is left all zero.
fn write_least(card: &mut [u8], work: &mut [u8], by: u16, jobs: &Jobs) -> u16
    requires { (Askable jobs.now) × ((least_count (sheet_of jobs.now) by ≤ most_modules)
        × (card_size (count_of jobs.now) ≤ length card.old)) }
    ensures count { result ≡ least_count (sheet_of jobs.now) by }
    ensures card { card.new
        ≡ best_card (with_modules (sheet_of jobs.now) (least_count (sheet_of jobs.now) by))
        ++ drop (card_size (count_of jobs.now)) card.old }
    ensures work { work.new ≡ replicate (length work.old) 0 }
{
    let modules = cabinets::least_count(work, by, jobs);
    let table = job_table::for_cabinet(jobs, modules);
    planner::write_best(card, work, &table);
    modules
}

// The least module count with which some valid plan ends by minute `by`, or the first refusal of 1 to 3, 19, 4 to 7, 9, 20 and 10. Answered,
// planning's card for that count is at the front of the lent card and the working memory is all zero; refused, every lent byte is as before.
pub fn size(sheet: &[u8], by: u16, card: &mut [u8], work: &mut [u8]) -> Sized
    ensures answer { result ≡ size_answer sheet.now by (length card.old) }
    ensures card { card.new ≡ size_card_after sheet.now by card.old }
    ensures work { work.new ≡ size_work_after sheet.now by (length card.old) work.old }
{
    let jobs = match planable::read_table(sheet) {
        Ok(jobs) => jobs,
        Err(refusal) => return refused(refusal),
    };
    if let Err(refusal) = check_count(&jobs, by, card.len()) {
        return refused(refusal);
    }
    Sized {
        refusal: 0,
        modules: write_least(card, work, by, &jobs),
    }
}
