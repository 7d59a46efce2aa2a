// The edges of the desk, a line a case.
use super::lines::print_case;
use desk::Desk;
use std::io;

// Opens with the first of the shares and of the ceilings.
fn open_fronts(
    rt: &impl Print,
    name: &str,
    limit: u32,
    assured: &[u32],
    shares: usize,
    tops: &[u32],
    ceilings: usize,
) -> io::Result<()> {
    if shares <= assured.len() {
        if ceilings <= tops.len() {
            print_case(
                rt,
                name,
                opening::open(limit, &assured[0..shares], &tops[0..ceilings]).refusal,
            )?;
        }
    }
    Ok(())
}

// Opens with so many equal shares and so many equal ceilings.
fn open(
    rt: &impl Print,
    name: &str,
    limit: u32,
    shares: usize,
    share: u32,
    ceilings: usize,
    ceiling: u32,
) -> io::Result<()> {
    open_fronts(
        rt,
        name,
        limit,
        &[share; 9],
        shares,
        &[ceiling; 9],
        ceilings,
    )
}

// Opens a desk of 1 kW for two controllers.
fn open_two(
    rt: &impl Print,
    name: &str,
    share: u32,
    other_share: u32,
    ceiling: u32,
    other_ceiling: u32,
) -> io::Result<()> {
    let shares = [share, other_share];
    let ceilings = [ceiling, other_ceiling];
    print_case(rt, name, opening::open(10, &shares, &ceilings).refusal)
}

fn lists(rt: &impl Print) -> io::Result<()> {
    open(rt, "1 controller", 10, 1, 1, 1, 10)?;
    open(rt, "2 controllers", 10, 2, 1, 2, 10)?;
    open(rt, "8 controllers", 10, 8, 1, 8, 10)?;
    open(rt, "9 controllers", 10, 9, 1, 9, 10)?;
    open(rt, "2 shares and 3 ceilings", 10, 2, 1, 3, 10)?;
    Ok(())
}

fn limits(rt: &impl Print) -> io::Result<()> {
    open(rt, "limit 0", 0, 2, 0, 2, 0)?;
    open(rt, "limit 1", 1, 2, 0, 2, 1)?;
    open(rt, "limit 400000", 400000, 2, 0, 2, 1)?;
    open(rt, "limit 400001", 400001, 2, 0, 2, 1)?;
    Ok(())
}

fn pairs(rt: &impl Print) -> io::Result<()> {
    open_two(rt, "shares at the ceiling", 4, 4, 4, 4)?;
    open_two(rt, "a share above its ceiling", 4, 5, 4, 4)?;
    open_two(rt, "ceilings at the limit", 4, 4, 10, 10)?;
    open_two(rt, "a ceiling above it", 4, 4, 10, 11)?;
    open_two(rt, "shares of the limit", 5, 5, 10, 10)?;
    open_two(rt, "shares of one more", 6, 5, 10, 10)?;
    Ok(())
}

// Two controllers with shares of 4 and 3 on a feeder of 1.2 kW.
fn small(ceiling: u32) -> Desk {
    opening::open(12, &[4u32, 3u32], &[ceiling; 2]).desk
}

// Prints what a look gives.
fn look(rt: &impl Print, desk: Desk, controller: u32) -> io::Result<()> {
    let looked = desk.look(controller);
    print_case(rt, "  a look", looked.refusal)?;
    print_case(rt, "  power left", looked.power)?;
    Ok(())
}

// Claims on a new desk.
fn claim(rt: &impl Print, name: &str, ceiling: u32, controller: u32, power: u32) -> io::Result<()> {
    let desk = small(ceiling);
    let booked = desk.claim(controller, power);
    print_case(rt, name, booked.refusal)?;
    look(rt, booked.desk, controller)?;
    Ok(())
}

// Hands back where controller 1 holds 5.
fn hand_back(rt: &impl Print, name: &str, controller: u32, power: u32) -> io::Result<()> {
    let desk = small(12);
    let held = desk.claim(1, 5).desk;
    let booked = held.hand_back(controller, power);
    print_case(rt, name, booked.refusal)?;
    look(rt, booked.desk, controller)?;
    Ok(())
}

fn claims(rt: &impl Print) -> io::Result<()> {
    claim(rt, "a claim of 0", 8, 0, 0)?;
    claim(rt, "a claim at the ceiling", 8, 0, 8)?;
    claim(rt, "a claim above the ceiling", 8, 0, 9)?;
    claim(rt, "a claim at the limit", 12, 0, 9)?;
    claim(rt, "a claim above the limit", 12, 0, 10)?;
    claim(rt, "a claim by controller 2 of 2", 12, 2, 1)?;
    claim(rt, "a claim on a desk that was not opened", 13, 0, 1)?;
    Ok(())
}

fn hand_backs(rt: &impl Print) -> io::Result<()> {
    hand_back(rt, "a hand-back of 0", 1, 0)?;
    hand_back(rt, "a hand-back of all that is held", 1, 5)?;
    hand_back(rt, "a hand-back of more", 1, 6)?;
    hand_back(rt, "a hand-back by controller 2 of 2", 2, 5)?;
    Ok(())
}

// Gives a desk equal shares and equal ceilings for so many controllers.
fn change_on(
    rt: &impl Print,
    desk: Desk,
    name: &str,
    limit: u32,
    share: u32,
    ceiling: u32,
    count: usize,
) -> io::Result<()> {
    let assured = [share; 9];
    let ceilings = [ceiling; 9];
    if count <= 9 {
        let booked = share_change::change(desk, limit, &assured[0..count], &ceilings[0..count]);
        print_case(rt, name, booked.refusal)?;
        look(rt, booked.desk, 1)?;
    }
    Ok(())
}

// The same where controller 1 of two holds 5.
fn change(
    rt: &impl Print,
    name: &str,
    limit: u32,
    share: u32,
    ceiling: u32,
    count: usize,
) -> io::Result<()> {
    let desk = small(12);
    let held = desk.claim(1, 5).desk;
    change_on(rt, held, name, limit, share, ceiling, count)
}

fn changes(rt: &impl Print) -> io::Result<()> {
    change(rt, "a change to the limit", 400000, 4, 12, 2)?;
    change(rt, "a change to one more", 400001, 4, 12, 2)?;
    change(rt, "a change to no limit", 0, 0, 0, 2)?;
    change(rt, "a change to ceilings of what is held", 12, 4, 5, 2)?;
    change(rt, "a change to ceilings of less", 12, 4, 4, 2)?;
    change(rt, "a change to what is held and assured", 9, 4, 9, 2)?;
    change(rt, "a change to less", 8, 4, 8, 2)?;
    change(rt, "a change to shares of one more", 7, 4, 7, 2)?;
    change(rt, "a change to 3 controllers", 12, 4, 12, 3)?;
    change(rt, "a change to 1 controller", 12, 4, 12, 1)?;
    let none = small(13);
    change_on(
        rt,
        none,
        "a change of a desk that was not opened",
        12,
        4,
        12,
        3,
    )?;
    Ok(())
}

pub fn run(rt: &impl Print) -> io::Result<()> {
    lists(rt)?;
    limits(rt)?;
    pairs(rt)?;
    claims(rt)?;
    hand_backs(rt)?;
    changes(rt)?;
    Ok(())
}
