// The edges of planning.
use super::lines::print_case;
use sheet_format::Job;
use std::io;
use words::Number;

// The lengths of the sheets of one job and of twenty jobs with labels of one byte.
pub const ONE: usize = 23;

pub const TWENTY: usize = 270;

// The lengths of their cards.
pub const ONE_CARD: usize = 21;

pub const TWENTY_CARD: usize = 268;

// What the lent bytes hold before a call.
pub const CARD_BYTE: u8 = 9;

pub const WORK_BYTE: u8 = 7;

pub fn job(modules: u8, minutes: u16, earlier: u32, arrival: u16) -> Job {
    Job {
        label_len: 1,
        modules,
        minutes,
        earlier,
        departure: 30,
        arrival,
    }
}

// The sheet of one job of 10 minutes, for a cabinet of 64 modules.
pub fn one(modules: u8, earlier: u32) -> [u8; ONE] {
    let mut s = [0u8; ONE];
    sheet::write([job(modules, 10, earlier, 0); 20], 1, b"A", 64, 0, &mut s);
    s
}

// The sheet of twenty jobs that are alike, for a cabinet of 64 modules.
pub fn twenty(modules: u8, minutes: u16, arrival: u16, changeover: u16) -> [u8; TWENTY] {
    let mut s = [0u8; TWENTY];
    sheet::write(
        [job(modules, minutes, 0, arrival); 20],
        20,
        &[b'B'; 20],
        64,
        changeover,
        &mut s,
    );
    s
}

fn wide(x: u8) -> u32 {
    x as u32
}

pub fn first(s: &[u8]) -> u32 {
    if 0 < s.len() { wide(s[0]) } else { 0 }
}

// The plan's end on a card that fills the lent bytes: the second number of the trailer.
fn end(card: &[u8]) -> u32 {
    if card.len() < 8 {
        return 0;
    }
    u16::read(card, card.len() - 4) as u32
}

// Plans a sheet, and prints the number and what then stands first in the lent bytes.
fn plan(rt: &impl Print, name: &str, s: &[u8], card: &mut [u8], work: &mut [u8]) -> io::Result<()> {
    print_case(rt, name, planner::plan(s, card, work))?;
    print_case(rt, "  first byte of the card", first(card))?;
    print_case(rt, "  first byte of the memory", first(work))?;
    Ok(())
}

// Plans a sheet whose card fills the lent bytes, and prints the plan's end too.
fn plan_whole(
    rt: &impl Print,
    name: &str,
    s: &[u8],
    card: &mut [u8],
    work: &mut [u8],
) -> io::Result<()> {
    plan(rt, name, s, card, work)?;
    print_case(rt, "  end", end(card))?;
    Ok(())
}

// Plans one job.
fn plan_one(
    rt: &impl Print,
    name: &str,
    modules: u8,
    earlier: u32,
    card: &mut [u8],
) -> io::Result<()> {
    plan(rt, name, &one(modules, earlier), card, &mut [WORK_BYTE; 64])
}

fn one_job(rt: &impl Print) -> io::Result<()> {
    plan_whole(
        rt,
        "a job of 64 modules out of 64",
        &one(64, 0),
        &mut [CARD_BYTE; ONE_CARD],
        &mut [WORK_BYTE; 64],
    )?;
    plan_one(
        rt,
        "a card of one byte less",
        64,
        0,
        &mut [CARD_BYTE; ONE_CARD - 1],
    )?;
    plan_one(
        rt,
        "a job of 65 modules out of 64",
        65,
        0,
        &mut [CARD_BYTE; ONE_CARD],
    )?;
    plan_one(rt, "a job before itself", 64, 1, &mut [CARD_BYTE; ONE_CARD])?;
    Ok(())
}

// Plans twenty jobs.
fn plan_twenty(
    rt: &impl Print,
    name: &str,
    modules: u8,
    minutes: u16,
    arrival: u16,
    changeover: u16,
    work: &mut [u8],
) -> io::Result<()> {
    plan_whole(
        rt,
        name,
        &twenty(modules, minutes, arrival, changeover),
        &mut [CARD_BYTE; TWENTY_CARD],
        work,
    )
}

fn twenty_jobs(rt: &impl Print) -> io::Result<()> {
    plan_twenty(rt, "20 jobs at once", 3, 10, 0, 0, &mut [WORK_BYTE; 4096])?;
    plan_twenty(
        rt,
        "20 jobs of 1440 minutes one after another",
        64,
        1440,
        0,
        0,
        &mut [WORK_BYTE; 4096],
    )?;
    plan_twenty(
        rt,
        "the same without working memory",
        64,
        1440,
        0,
        0,
        &mut [WORK_BYTE; 0],
    )?;
    // their departures are before their arrivals
    plan_twenty(
        rt,
        "20 jobs of 1440 minutes that arrive at 1440",
        64,
        1440,
        1440,
        0,
        &mut [WORK_BYTE; 4096],
    )?;
    // the latest end of all: 1440, twenty times 1440, and nineteen rests of 30
    plan_twenty(
        rt,
        "the same with changeovers of 30",
        64,
        1440,
        1440,
        30,
        &mut [WORK_BYTE; 4096],
    )?;
    Ok(())
}

pub fn run(rt: &impl Print) -> io::Result<()> {
    one_job(rt)?;
    twenty_jobs(rt)?;
    Ok(())
}
