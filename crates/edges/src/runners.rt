// The edges of the plan runner.
use super::lines::print_case;
use desk::Desk;
use runner::{Runner, Stepped};
use sheet_format::Job;
use std::io;

// The lengths of the sheet of one job with a label of one byte, and of its card.
const SHEET: usize = 23;

const CARD: usize = 21;

// The sheet of one job of 2 modules and a minute, for a cabinet of 2 modules with a changeover of a minute.
fn sheet_of_one() -> [u8; SHEET] {
    let job = Job {
        label_len: 1,
        modules: 2,
        minutes: 1,
        earlier: 0,
        departure: 30,
        arrival: 0,
    };
    let mut s = [0u8; SHEET];
    sheet::write([job; 20], 1, b"A", 2, 1, &mut s);
    s
}

fn card_of_one() -> [u8; CARD] {
    let mut card = [0u8; CARD];
    planner::plan(&sheet_of_one(), &mut card, &mut [0u8; 0]);
    card
}

// Two controllers, of which the first is assured of a share.
fn feeder(share: u32) -> Desk {
    opening::open(30000, &[share, 0u32], &[30000u32; 2]).desk
}

// Starts a runner, and prints the number and the size of a module that it keeps.
fn start_with(
    rt: &impl Print,
    name: &str,
    s: &[u8],
    card: &[u8],
    desk: Desk,
    controller: u32,
    size: u32,
) -> io::Result<Runner> {
    let started = runner::start(s, card, desk, controller, size);
    print_case(rt, name, started.refusal)?;
    let runner = started.runner;
    print_case(rt, "  its module size", runner.size)?;
    Ok(runner)
}

fn start(
    rt: &impl Print,
    name: &str,
    share: u32,
    controller: u32,
    size: u32,
) -> io::Result<Runner> {
    start_with(
        rt,
        name,
        &sheet_of_one(),
        &card_of_one(),
        feeder(share),
        controller,
        size,
    )
}

fn start_where_held(rt: &impl Print, name: &str, power: u32) -> io::Result<()> {
    let desk = feeder(600);
    let held = desk.claim(0, power).desk;
    start_with(rt, name, &sheet_of_one(), &card_of_one(), held, 0, 300)?;
    Ok(())
}

// Starts with a card of these figures: the row's start, end and module set, the job that the order names, the order's offset, the plan's end
// and the number of jobs.
fn start_card(
    rt: &impl Print,
    name: &str,
    row: [u8; 3],
    job: u8,
    trailer: [u8; 3],
) -> io::Result<()> {
    let card: [u8; CARD] = [
        row[0], 0, row[1], 0, row[2], 0, 0, 0, 0, 0, 0, 0, job, trailer[0], 0, 0, 0, trailer[1], 0,
        trailer[2], 0,
    ];
    start_with(rt, name, &sheet_of_one(), &card, feeder(600), 0, 300)?;
    Ok(())
}

fn starts(rt: &impl Print) -> io::Result<()> {
    start(rt, "a share of the plan's need", 600, 0, 300)?;
    start(rt, "a share of one less", 599, 0, 300)?;
    start(rt, "modules of 0", 600, 0, 0)?;
    start(rt, "modules of 1", 600, 0, 1)?;
    start(rt, "modules of 10000", 20000, 0, 10000)?;
    start(rt, "modules of 10001", 30000, 0, 10001)?;
    start(rt, "modules of 10001 by controller 2 of 2", 600, 2, 10001)?;
    start_where_held(rt, "a holding of 0", 0)?;
    start_where_held(rt, "a holding of 1", 1)?;
    Ok(())
}

fn cards(rt: &impl Print) -> io::Result<()> {
    start_card(rt, "a card of the plan", [0, 1, 3], 0, [12, 1, 1])?;
    start_card(rt, "a card of a later plan", [1, 2, 3], 0, [12, 2, 1])?;
    start_card(rt, "another end of the row", [0, 2, 3], 0, [12, 2, 1])?;
    start_card(rt, "a module that there is not", [0, 1, 5], 0, [12, 1, 1])?;
    start_card(rt, "a module less", [0, 1, 1], 0, [12, 1, 1])?;
    start_card(rt, "a job that there is not", [0, 1, 3], 1, [12, 1, 1])?;
    start_card(rt, "another offset of the order", [0, 1, 3], 0, [11, 1, 1])?;
    start_card(rt, "another end of the plan", [0, 1, 3], 0, [12, 2, 1])?;
    start_card(rt, "another number of jobs", [0, 1, 3], 0, [12, 1, 0])?;
    start_with(
        rt,
        "a card of one byte less",
        &sheet_of_one(),
        &[0u8; CARD - 1],
        feeder(600),
        0,
        300,
    )?;
    start_with(
        rt,
        "no sheet, and modules of 0",
        b"",
        b"",
        feeder(600),
        0,
        0,
    )?;
    Ok(())
}

// Does a minute, and prints the number, the runner's next minute and what its controller then holds.
fn step(rt: &impl Print, name: &str, runner: Runner, desk: Desk) -> io::Result<Stepped> {
    let stepped = runner::step(runner, desk);
    print_case(rt, name, stepped.refusal)?;
    let next = stepped.runner;
    print_case(rt, "  next minute", next.minute)?;
    let after = stepped.desk;
    print_case(rt, "  held", after.held[0])?;
    Ok(stepped)
}

fn steps(rt: &impl Print) -> io::Result<()> {
    let runner = start(rt, "a runner", 600, 0, 300)?;
    let minute_0 = step(rt, "minute 0, with a claim", runner, feeder(600))?;
    let minute_1 = step(rt, "minute 1, with a rest", minute_0.runner, minute_0.desk)?;
    let minute_2 = step(
        rt,
        "minute 2, with a hand-back",
        minute_1.runner,
        minute_1.desk,
    )?;
    step(
        rt,
        "behind the last hand-back",
        minute_2.runner,
        minute_2.desk,
    )?;
    step(rt, "minute 2 on a new desk", minute_1.runner, feeder(600))?;
    step(
        rt,
        "minute 0 on a desk that was not opened",
        runner,
        feeder(30001),
    )?;
    let mut beyond = minute_2.runner;
    beyond.minute = 4;
    step(rt, "a minute too far", beyond, feeder(600))?;
    let none = start(rt, "a refused start", 600, 0, 0)?;
    step(rt, "a refused start's runner", none, feeder(600))?;
    Ok(())
}

pub fn run(rt: &impl Print) -> io::Result<()> {
    starts(rt)?;
    cards(rt)?;
    steps(rt)?;
    Ok(())
}
