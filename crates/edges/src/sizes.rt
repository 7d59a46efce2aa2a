// The edges of the least module count.
use super::lines::print_case;
use super::plans::{CARD_BYTE, ONE_CARD, TWENTY_CARD, WORK_BYTE};
use std::io;

// Sizes a sheet, and prints the number, the count and what then stands first in the lent bytes.
fn size(rt: &impl Print, name: &str, s: &[u8], by: u16, card: &mut [u8]) -> io::Result<()> {
    let mut work = [WORK_BYTE; 64];
    let answer = sizing::size(s, by, card, &mut work);
    print_case(rt, name, answer.refusal)?;
    print_case(rt, "  modules", answer.modules as u32)?;
    print_case(rt, "  first byte of the card", super::plans::first(card))?;
    print_case(rt, "  first byte of the memory", super::plans::first(&work))?;
    Ok(())
}

// Sizes the sheet of one job of 10 minutes.
fn size_one(rt: &impl Print, name: &str, modules: u8, earlier: u32, by: u16) -> io::Result<()> {
    size(
        rt,
        name,
        &super::plans::one(modules, earlier),
        by,
        &mut [CARD_BYTE; ONE_CARD],
    )
}

// The same with a card of one byte less than it takes.
fn size_short(rt: &impl Print, name: &str, modules: u8, earlier: u32, by: u16) -> io::Result<()> {
    size(
        rt,
        name,
        &super::plans::one(modules, earlier),
        by,
        &mut [CARD_BYTE; ONE_CARD - 1],
    )
}

fn one_job(rt: &impl Print) -> io::Result<()> {
    size_one(rt, "a job of 64 modules by its end", 64, 0, 10)?;
    size_one(rt, "by the minute before", 64, 0, 9)?;
    size_one(rt, "by minute 65535", 64, 0, 65535)?;
    size_one(rt, "a job of 1 module", 1, 0, 10)?;
    size_one(rt, "a job of 65 modules", 65, 0, 65535)?;
    Ok(())
}

fn short_cards(rt: &impl Print) -> io::Result<()> {
    size_short(rt, "a card of one byte less", 64, 0, 10)?;
    size_short(rt, "the same by the minute before", 64, 0, 9)?;
    size_short(rt, "a job of 65 modules before itself", 65, 1, 0)?;
    Ok(())
}

// Sizes the sheet of twenty jobs that are alike.
fn size_twenty(
    rt: &impl Print,
    name: &str,
    modules: u8,
    minutes: u16,
    arrival: u16,
    changeover: u16,
    by: u16,
) -> io::Result<()> {
    size(
        rt,
        name,
        &super::plans::twenty(modules, minutes, arrival, changeover),
        by,
        &mut [CARD_BYTE; TWENTY_CARD],
    )
}

fn twenty_jobs(rt: &impl Print) -> io::Result<()> {
    size_twenty(rt, "20 jobs of 3 modules at once", 3, 10, 0, 0, 10)?;
    size_twenty(rt, "20 jobs of 4 modules at once", 4, 10, 0, 0, 10)?;
    size_twenty(rt, "20 jobs of 4 modules in two turns", 4, 10, 0, 0, 20)?;
    size_twenty(
        rt,
        "20 jobs of 4 modules by minute 65535",
        4,
        10,
        0,
        0,
        65535,
    )?;
    size_twenty(rt, "by the latest end of all", 64, 1440, 1440, 30, 30810)?;
    size_twenty(rt, "by the minute before it", 64, 1440, 1440, 30, 30809)?;
    Ok(())
}

pub fn run(rt: &impl Print) -> io::Result<()> {
    one_job(rt)?;
    short_cards(rt)?;
    twenty_jobs(rt)?;
    Ok(())
}
