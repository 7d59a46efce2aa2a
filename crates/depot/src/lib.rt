// What firmware links: the version, planning, job sheets, the desk where firmware keeps it, and the plan runner. Each is a call of a proved
// function; include/depot.h declares them for C. The desk's calls copy the lent desk, make the call by value, and put the desk that it hands
// back in its place. Runners and their desks cross by value.
#![tactic(auto)]

ghost use Rattle.std.specs.Prelude.{◌≡◌, length};
ghost use Rattle.planner.specs.Planning.{plan_refusal, card_after, memory_after};
ghost use Rattle.planable.specs.Planable.{sheet_in, planable_refusal, work_after};
ghost use Rattle.limited.specs.Limited.{refused_with, LimitedCard};
ghost use Rattle.earliest.specs.Earliest.{end_answer};
ghost use Rattle.job_sets.specs.Results.{sets_answer};
ghost use Rattle.sizing.specs.Sizing.{size_answer, size_card_after, size_work_after};
ghost use Rattle.usage.specs.Usage.{use_refusal, usage};
ghost use Rattle.slack.specs.Slack.{slacks};
ghost use Rattle.sheet_format.specs.Format.{jobs_in, cabinet};
ghost use Rattle.sheet.specs.Read.{reading};
ghost use Rattle.sheet.specs.Label.{label_place, place_in};
ghost use Rattle.sheet.specs.Write.{write_answer, write_leaves};
ghost use Rattle.desk.specs.Calls.{claimed, handed_back, changed};
ghost use Rattle.lent.specs.Lent.{opened_over, looked_at};
ghost use Rattle.runner.specs.Runner.{started, stepped};
ghost use Rattle.version.specs.Version.{version};

use desk::Desk;
use earliest::Earliest;
use job_sets::SetCount;
use lent::Looked;
use limited::Limited;
use occupancy::Usage;
use runner::{Runner, Started, Stepped};
use sheet::{LabelPlace, Reading, Written};
use sheet_format::Job;
use sizing::Sized;
use slack::Slacks;

// ---- the version

// The number of this library's version; the header has the same.
#[unsafe(no_mangle)]
pub extern "C" fn depot_version() -> u32
    ensures { result ≡ version }
{
    version::number()
}

// ---- planning

// Planning: 0, or the first refusal of 1 to 10 and 19. Answered, the card of the tie rule's plan is at the front of the lent card and the
// working memory, of any length, is all zero; refused, every lent byte is as before. The three buffers do not overlap.
#[unsafe(no_mangle)]
pub extern "C" fn depot_plan(sheet: &[u8], card: &mut [u8], work: &mut [u8]) -> u32
    ensures refusal { result ≡ plan_refusal sheet.now (length card.old) }
    ensures card { card.new ≡ card_after sheet.now card.old }
    ensures work { work.new ≡ memory_after sheet.now (length card.old) work.old }
{
    planner::plan(sheet, card, work)
}

// Planning with a limit: the search gives up after about so many part-plans, at UINT64_MAX never. Answered, or the first refusal of 1 to 10
// and 19. Answered, the card of a valid plan is at the front of the lent card and the working memory is all zero; no valid plan ends before
// the bound, and where the mark is 1 the card is planning's. Refused, every lent byte is as before. The three buffers do not overlap.
#[unsafe(no_mangle)]
pub extern "C" fn depot_plan_within(
    sheet: &[u8],
    card: &mut [u8],
    work: &mut [u8],
    limit: u64,
) -> Limited
    ensures refused { ¬ (plan_refusal sheet.now (length card.old) ≡ 0)
        → (result ≡ refused_with (plan_refusal sheet.now (length card.old))) × (card.new ≡ card.old) }
    ensures answered { plan_refusal sheet.now (length card.old) ≡ 0
        → LimitedCard (sheet_in sheet.now) card.old card.new limit result }
    ensures work { work.new ≡ memory_after sheet.now (length card.old) work.old }
{
    limited::plan_limited(sheet, card, work, limit)
}

// The end alone: that of the plan that planning gives, or the first refusal of 1 to 9 and 19. Answered, the working memory is all zero;
// refused, it is as before.
#[unsafe(no_mangle)]
pub extern "C" fn depot_end(sheet: &[u8], work: &mut [u8]) -> Earliest
    ensures answer { result ≡ end_answer sheet.now }
    ensures work { work.new ≡ work_after (planable_refusal sheet.now) work.old }
{
    earliest::earliest_end(sheet, work)
}

// How large a cabinet: the least module count with which some valid plan ends by minute `by`, or the first refusal of 1 to 3, 19, 4 to 7, 9,
// 20 and 10. Answered, planning's card for that count is at the front of the lent card and the working memory is all zero; refused, every
// lent byte is as before. The three buffers do not overlap.
#[unsafe(no_mangle)]
pub extern "C" fn depot_size(sheet: &[u8], by: u16, card: &mut [u8], work: &mut [u8]) -> Sized
    ensures answer { result ≡ size_answer sheet.now by (length card.old) }
    ensures card { card.new ≡ size_card_after sheet.now by card.old }
    ensures work { work.new ≡ size_work_after sheet.now by (length card.old) work.old }
{
    sizing::size(sheet, by, card, work)
}

// The use of the cabinet in the plan that planning gives, or the first refusal of 1 to 9, 19 and 23. Answered, the working memory is all
// zero; refused, it is as before.
#[unsafe(no_mangle)]
pub extern "C" fn depot_use(sheet: &[u8], work: &mut [u8]) -> Usage
    ensures answer { result ≡ usage sheet.now }
    ensures work { work.new ≡ work_after (use_refusal sheet.now) work.old }
{
    usage::used(sheet, work)
}

// For each job its latest start, the slack of its planned start and the marks that others imply, or the first refusal of 1 to 9 and 19.
// Answered, the working memory is all zero; refused, it is as before.
#[unsafe(no_mangle)]
pub extern "C" fn depot_slack(sheet: &[u8], work: &mut [u8]) -> Slacks
    ensures answer { result ≡ slacks sheet.now }
    ensures work { work.new ≡ work_after (planable_refusal sheet.now) work.old }
{
    slack::slack(sheet, work)
}

// How many sets of jobs a part-plan of the sheet can hold, or the first refusal of 1 to 9 and 19. Nothing is planned.
#[unsafe(no_mangle)]
pub extern "C" fn depot_sets(sheet: &[u8]) -> SetCount
    ensures { result ≡ sets_answer sheet.now }
{
    job_sets::set_count(sheet)
}

// ---- job sheets

// Reading: the jobs of a sheet, n, N and the changeover, or the first refusal of 1 to 7 and 19.
#[unsafe(no_mangle)]
pub extern "C" fn depot_read(sheet: &[u8]) -> Reading
    ensures { result ≡ reading sheet.now }
{
    sheet::read(sheet)
}

// The label of a job: where it lies in the lent sheet, or the first refusal of 1 to 7, 19 and 14.
#[unsafe(no_mangle)]
pub extern "C" fn depot_label(sheet: &[u8], job: usize) -> LabelPlace
    ensures { result ≡ label_place sheet.now job }
{
    labels::label_place(sheet, job)
}

// The label of a job from what reading answered: where it lies in the sheet that was read, or the reading's refusal, then 14.
#[unsafe(no_mangle)]
pub extern "C" fn depot_label_of(reading: Reading, job: usize) -> LabelPlace
    ensures { result ≡ place_in reading job }
{
    labels::place_in(reading, job)
}

// Writing: the sheet of the lent jobs goes to the front of the lent buffer, and its length is the answer, or the first refusal of 2, 3,
// 19, 5, 6, 7 and 10. Refused, every lent byte is as before.
#[unsafe(no_mangle)]
pub extern "C" fn depot_write(
    jobs: &[Job],
    labels: &[u8],
    modules: u16,
    changeover: u16,
    sheet: &mut [u8],
) -> Written
    ensures { (result ≡ write_answer (jobs_in jobs.now) (length jobs.now) labels.now
        (cabinet modules changeover) sheet.old)
        × (sheet.new ≡ write_leaves (jobs_in jobs.now) (length jobs.now) labels.now
        (cabinet modules changeover) sheet.old) }
{
    sheet_list::write_list(jobs, labels, modules, changeover, sheet)
}

// ---- the desk

// Opens the lent desk. Refused, it is as before.
#[unsafe(no_mangle)]
pub extern "C" fn depot_desk_open(
    desk: &mut Desk,
    limit: u32,
    assured: &[u32],
    ceilings: &[u32],
) -> u32
    ensures { (result ≡ (opened_over desk.old limit assured.now ceilings.now).refusal)
        × (desk.new ≡ (opened_over desk.old limit assured.now ceilings.now).desk) }
{
    let answer = lent::opened_over(*desk, limit, assured, ceilings);
    *desk = answer.desk;
    answer.refusal
}

// Gives the lent desk a new limit, new shares and new ceilings; all holdings carry over. Refused, it is as before.
#[unsafe(no_mangle)]
pub extern "C" fn depot_desk_change(
    desk: &mut Desk,
    limit: u32,
    assured: &[u32],
    ceilings: &[u32],
) -> u32
    ensures { (result ≡ (changed desk.old limit assured.now ceilings.now).refusal)
        × (desk.new ≡ (changed desk.old limit assured.now ceilings.now).desk) }
{
    let answer = share_change::change(*desk, limit, assured, ceilings);
    *desk = answer.desk;
    answer.refusal
}

// A claim on the lent desk. Refused, it is as before.
#[unsafe(no_mangle)]
pub extern "C" fn depot_desk_claim(desk: &mut Desk, controller: u32, power: u32) -> u32
    ensures { (result ≡ (claimed desk.old controller power).refusal)
        × (desk.new ≡ (claimed desk.old controller power).desk) }
{
    let answer = (*desk).claim(controller, power);
    *desk = answer.desk;
    answer.refusal
}

// A hand-back on the lent desk. Refused, it is as before.
#[unsafe(no_mangle)]
pub extern "C" fn depot_desk_hand_back(desk: &mut Desk, controller: u32, power: u32) -> u32
    ensures { (result ≡ (handed_back desk.old controller power).refusal)
        × (desk.new ≡ (handed_back desk.old controller power).desk) }
{
    let answer = (*desk).hand_back(controller, power);
    *desk = answer.desk;
    answer.refusal
}

// A look at the lent desk, which stays as it is: the number and the figure.
#[unsafe(no_mangle)]
pub extern "C" fn depot_desk_look(desk: &Desk, controller: u32) -> Looked
    ensures { result ≡ looked_at desk.now controller }
{
    lent::look_at(*desk, controller)
}

// ---- the plan runner

// Starts a runner: the runner, or the first refusal of 1 to 9, 19, 14, 24, 25 and 26 with a runner of zeros. The desk is only read.
#[unsafe(no_mangle)]
pub extern "C" fn depot_runner_start(
    sheet: &[u8],
    card: &[u8],
    desk: Desk,
    controller: u32,
    size: u32,
) -> Started
    ensures { result ≡ started sheet.now card.now desk controller size }
{
    runner::start(sheet, card, desk, controller, size)
}

// A runner's next minute on the desk: both as they then are, or the refusal 14 or the desk's own, with both as before.
#[unsafe(no_mangle)]
pub extern "C" fn depot_runner_step(runner: Runner, desk: Desk) -> Stepped
    ensures { result ≡ stepped desk runner }
{
    runner::step(runner, desk)
}
