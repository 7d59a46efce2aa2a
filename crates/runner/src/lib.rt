// The plan runner: it follows the plan on a card, minute by minute, on a desk. It relies on the calls of planner and desk by their
// contracts alone.
#![tactic(auto)]

ghost use Rattle.std.specs.Prelude.{◌≡◌, cond, ◌&&◌, ◌||◌, ◌+◌, ◌≤◌, ◌<◌, ltb, leb, eqb, length, get_or};
ghost use Rattle.counting.specs.Counting.{every};
ghost use Rattle.checking.specs.Checking.{first_failing};
ghost use Rattle.checking.specs.Refusals.{refusal_number};
ghost use Rattle.tables.specs.Tables.{sheet_of, modules_of, Fit};
ghost use Rattle.sheet_format.specs.Figures.{longest_sheet};
ghost use Rattle.card_check.specs.Test.{card_fits};
ghost use Rattle.desk.specs.Desk.{most_power, most_controllers};
ghost use Rattle.desk.specs.Checks.{in_range};
ghost use Rattle.assurance.specs.Following.{plan_need};
ghost use Rattle.runner.specs.Runner.{longest_card, largest_size, in_places, new_runner, no_runner, with_minute, not_ready, run_checks, started, zeros_behind, stepped};
ghost use Rattle.runner.specs.Results.{KeptOf, started_by, Stepping};

use card::{ROW_SIZE, TRAILER_SIZE};
use checking::Refusal;
use desk::{Desk, MOST_CONTROLLERS, MOST_POWER};
use figures::MOST_JOBS;
use minutes::Turn;
use sheet_format::layout::LONGEST_SHEET;
use tables::Jobs;

// The longest card.
pub const LONGEST_CARD: usize = (ROW_SIZE + 1) * MOST_JOBS + TRAILER_SIZE;

// The largest module, in hundreds of watts.
pub const LARGEST_SIZE: u32 = 10000;

// A runner between two minutes: what an accepted start was given, and the next minute. A refused start's is all 0.
#[repr(C)]
#[derive(Clone, Copy)]
pub struct Runner {
    // The controller for which it calls.
    pub controller: u32,
    // The size of a module, in hundreds of watts.
    pub size: u32,
    // The minute that the next step does.
    pub minute: u32,
    // The sheet's length, and its bytes with 0 past the last.
    pub sheet_len: usize,
    pub sheet: [u8; LONGEST_SHEET],
    // The card's length, and its bytes with 0 past the last.
    pub card_len: usize,
    pub card: [u8; LONGEST_CARD],
}

// What a start answers: the refusal's number, or 0, and the runner; refused, a runner of zeros. The desk is only read.
#[repr(C)]
#[derive(Drop)]
pub struct Started {
    pub refusal: u32,
    pub runner: Runner,
}

// What a step answers: the refusal's number, or 0, and the desk and the runner as they then are; refused, both as before.
#[repr(C)]
#[derive(Drop)]
pub struct Stepped {
    pub refusal: u32,
    pub desk: Desk,
    pub runner: Runner,
}

// ---- the start

// Whether s is a module size.
fn size_ok(size: u32) -> bool
    ensures { result ≡ in_range 1 largest_size size }
{
    desk::in_range(1, LARGEST_SIZE as usize, size as usize)
}

// The power that a plan of the sheet needs, for modules of this size.
fn plan_need(jobs: &Jobs, size: u32) -> u32
    requires { (Fit jobs.now) × (size ≤ largest_size) }
    ensures { result ≡ plan_need (sheet_of jobs.now) size }
{
    (jobs.modules() as u32) * size
}

// Whether the controller is assured less than the plan needs, or holds something.
fn not_ready(jobs: &Jobs, desk: Desk, controller: u32, size: u32) -> bool
    requires { (Fit jobs.now) × ((size ≤ largest_size) × (controller < most_controllers)) }
    ensures { result ≡ not_ready desk controller (sheet_of jobs.now) size }
{
    let place = controller as usize;
    desk.assured[place] < plan_need(jobs, size) || desk.held[place] != 0
}

// Checks 14, 24, 25 and 26.
fn check_start(
    jobs: &Jobs,
    card: &[u8],
    desk: Desk,
    controller: u32,
    size: u32,
) -> Result<(), Refusal>
    requires { Fit jobs.now }
    ensures { refusal_number result ≡ first_failing (run_checks (sheet_of jobs.now) card.now desk controller size) }
{
    if desk.look(controller).refusal != 0 {
        return Err(Refusal::NotThere);
    }
    if !size_ok(size) {
        return Err(Refusal::ModuleSize);
    }
    if not_ready(jobs, desk, controller, size) {
        return Err(Refusal::WrongController);
    }
    if !card_check::fits(jobs, card) {
        return Err(Refusal::WrongCard);
    }
    Ok(())
}

// The bytes in N places, 0 past the last.
fn in_places<const N: usize>(bytes: &[u8]) -> [u8; N]
    requires { length bytes.now ≤ N }
    ensures { result ≡ in_places N bytes.now }
{
    let mut places = [0; N];
    places[..bytes.len()].copy_from_slice(bytes);
    places
}

// The runner behind an accepted start.
fn new_runner(sheet: &[u8], card: &[u8], controller: u32, size: u32) -> Runner
    requires { (length sheet.now ≤ longest_sheet) × (length card.now ≤ longest_card) }
    ensures { result ≡ new_runner sheet.now card.now controller size }
{
    let kept_sheet = in_places::<LONGEST_SHEET>(sheet);
    let kept_card = in_places::<LONGEST_CARD>(card);
    Runner {
        controller,
        size,
        minute: 0,
        sheet_len: sheet.len(),
        sheet: kept_sheet,
        card_len: card.len(),
        card: kept_card,
    }
}

// A refused start's runner.
fn no_runner() -> Runner
    ensures { result ≡ no_runner }
{
    Runner {
        controller: 0,
        size: 0,
        minute: 0,
        sheet_len: 0,
        sheet: [0u8; LONGEST_SHEET],
        card_len: 0,
        card: [0u8; LONGEST_CARD],
    }
}

// The runner behind an accepted start, or the first check that fails.
fn first_runner(
    sheet: &[u8],
    card: &[u8],
    desk: Desk,
    controller: u32,
    size: u32,
) -> Result<Runner, Refusal>
    ensures { started_by result ≡ started sheet.now card.now desk controller size }
{
    let jobs = planable::front(sheet)?;
    check_start(&jobs, card, desk, controller, size)?;
    Ok(new_runner(sheet, card, controller, size))
}

// Starts a runner for the controller, with modules of this size in hundreds of watts: planning's checks without 10, then 14, 24, 25 and
// 26. The desk is only read.
pub fn start(sheet: &[u8], card: &[u8], desk: Desk, controller: u32, size: u32) -> Started
    ensures { result ≡ started sheet.now card.now desk controller size }
{
    match first_runner(sheet, card, desk, controller, size) {
        Ok(runner) => Started { refusal: 0, runner },
        Err(refusal) => Started {
            refusal: refusal.number(),
            runner: no_runner(),
        },
    }
}

// ---- a step

// Whether place i is used, or 0.
fn used_or_zero(places: &[u8], used: usize, i: usize) -> bool
    requires { i < length places.now }
    ensures { result ≡ ltb i used || eqb (get_or places.now i 0) 0 }
{
    i < used || places[i] == 0
}

// Whether so many places are used, and those behind are 0.
fn zeros_behind(places: &[u8], used: usize) -> bool
    ensures { result ≡ zeros_behind (length places.now) used places.now }
{
    used <= places.len() && (0..places.len()).all(|i| used_or_zero(places, used, i))
}

// Whether a runner with these figures and this card would start on some desk, for the sheet of the table.
fn kept_fits(jobs: &Jobs, card: &[u8], controller: u32, size: u32) -> bool
    requires { Fit jobs.now }
    ensures { result
        ≡ ltb controller most_controllers
        && (in_range 1 largest_size size
        && (leb (plan_need (sheet_of jobs.now) size) most_power && card_fits (sheet_of jobs.now) card.now)) }
{
    controller < MOST_CONTROLLERS as u32
        && size_ok(size)
        && plan_need(jobs, size) <= MOST_POWER
        && card_check::fits(jobs, card)
}

// Whether the bytes of sheet and card are as many as the runner says, with 0 behind.
fn places_ok(runner: Runner) -> bool
    ensures { result
        ≡ zeros_behind longest_sheet runner.sheet_len runner.sheet && zeros_behind longest_card runner.card_len runner.card }
{
    zeros_behind(&runner.sheet, runner.sheet_len) && zeros_behind(&runner.card, runner.card_len)
}

// The job table of the sheet that a runner keeps, where what it keeps would start on some desk.
fn test_kept(runner: Runner) -> Option<Jobs>
    ensures { KeptOf runner result }
{
    if !places_ok(runner) {
        return None;
    }
    let sheet = runner.sheet;
    let card = runner.card;
    match planable::front(&sheet[..runner.sheet_len]) {
        Ok(jobs) => {
            if kept_fits(
                &jobs,
                &card[..runner.card_len],
                runner.controller,
                runner.size,
            ) {
                Some(jobs)
            } else {
                None
            }
        }
        Err(_) => None,
    }
}

// The runner with its next minute, or as it is where all is over.
fn next_minute(mut runner: Runner, last: u32) -> Runner
    ensures { result ≡ cond (leb last runner.minute) runner (with_minute runner (runner.minute + 1)) }
{
    if runner.minute < last {
        runner.minute += 1;
    }
    runner
}

// A step of a runner that has passed the test, with the table of its sheet.
fn step_kept(runner: Runner, desk: Desk, jobs: &Jobs) -> Stepped
    requires { Stepping desk runner jobs.now }
    ensures { result ≡ stepped desk runner }
{
    let card = runner.card;
    let last = minutes::last_minute(jobs, &card[..runner.card_len]);
    if last < runner.minute {
        return Stepped {
            refusal: Refusal::NotThere.number(),
            desk,
            runner,
        };
    }
    let turn = Turn {
        controller: runner.controller,
        size: runner.size,
        minute: runner.minute,
    };
    let booked = minutes::book_minute(desk, jobs, &card[..runner.card_len], turn);
    let refusal = booked.refusal;
    if refusal != 0 {
        return Stepped {
            refusal,
            desk,
            runner,
        };
    }
    let after = booked.desk;
    Stepped {
        refusal: 0,
        desk: after,
        runner: next_minute(runner, last),
    }
}

// Does the runner's minute on the desk: the hand-backs and then the claims that fall due. Checks 14 for the desk, the controller and the
// runner; a call that the desk refuses gives its number. Refused, desk and runner are as before.
pub fn step(runner: Runner, desk: Desk) -> Stepped
    ensures { result ≡ stepped desk runner }
{
    if desk.look(runner.controller).refusal != 0 {
        return Stepped {
            refusal: Refusal::NotThere.number(),
            desk,
            runner,
        };
    }
    match test_kept(runner) {
        Some(jobs) => step_kept(runner, desk, &jobs),
        None => Stepped {
            refusal: Refusal::NotThere.number(),
            desk,
            runner,
        },
    }
}
