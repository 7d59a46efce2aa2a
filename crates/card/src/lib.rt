// The plan card: the bytes of the plan of an order in the lent card; lateness.
#![tactic(auto)]

ghost use Rattle.std.specs.Prelude.{◌≡◌, ◌++◌, ◌+◌, ◌*◌, ◌≤◌, length, take, drop};
ghost use Rattle.counting.specs.Counting.{joined};
ghost use Rattle.figures.specs.Figures.{most_jobs};
ghost use Rattle.schedule.specs.ListPlan.{Order};
ghost use Rattle.schedule.specs.TieRule.{end_of};
ghost use Rattle.tables.specs.Tables.{sheet_of, count_of, Fit};
ghost use Rattle.card.specs.Card.{row_size, trailer_size, card_size, row_bytes, trailer_bytes, card_bytes, card_of, lateness_of};
ghost use Rattle.card.specs.Rows.{slot_row};

use figures::MOST_JOBS;
use replay::Slots;
use tables::Jobs;
use words::Number;

// The bytes of a row: the job's start, at ROW_END its end, and at ROW_MODULES its module set.
pub const ROW_SIZE: usize = 12;

pub const ROW_END: usize = 2;

pub const ROW_MODULES: usize = 4;

// The bytes of the trailer: the offset of the order, at TRAILER_END the plan's end, and at TRAILER_COUNT the number of jobs.
pub const TRAILER_SIZE: usize = 8;

pub const TRAILER_END: usize = 4;

pub const TRAILER_COUNT: usize = 6;

// A row over the whole part.
fn write_row(part: &mut [u8], start: u16, end: u16, modules: u64)
    requires { length part.old ≡ row_size }
    ensures { part.new ≡ row_bytes start end modules }
{
    u16::write(part, 0, start);
    u16::write(part, ROW_END, end);
    u64::write(part, ROW_MODULES, modules);
}

// The rows over the whole part, in job order.
fn write_rows(part: &mut [u8], slots: Slots, count: usize)
    requires { (count ≤ most_jobs) × (length part.old ≡ row_size * count) }
    ensures { part.new ≡ joined count (slot_row slots) }
{
    for j in 0..count {
        let at = ROW_SIZE * j;
        let to = at + ROW_SIZE;
        write_row(
            &mut part[at..to],
            slots.start[j],
            slots.end[j],
            slots.modules[j],
        );
    }
}

// The order over the whole part, a byte per job.
fn write_order(part: &mut [u8], order: &[u8; MOST_JOBS], count: usize)
    requires { (count ≤ most_jobs) × ((count ≤ length order.now) × (length part.old ≡ count)) }
    ensures { part.new ≡ take count order.now }
{
    part.copy_from_slice(&order[..count]);
}

// The trailer over the whole part.
fn write_trailer(part: &mut [u8], count: usize, end: u16)
    requires { (count ≤ most_jobs) × (length part.old ≡ trailer_size) }
    ensures { part.new ≡ trailer_bytes count end }
{
    u32::write(part, 0, (ROW_SIZE * count) as u32);
    u16::write(part, TRAILER_END, end);
    u16::write(part, TRAILER_COUNT, count as u16);
}

// Writes the card at the front of the lent bytes, rows, order and trailer each into its own part; the bytes behind it stay.
pub fn write_card(card: &mut [u8], slots: Slots, order: &[u8; MOST_JOBS], count: usize, end: u16)
    requires { (count ≤ most_jobs) × ((count ≤ length order.now) × (card_size count ≤ length card.old)) }
    ensures { card.new
        ≡ card_bytes count (slot_row slots) (take count order.now) end ++ drop (card_size count) card.old }
{
    let rows = ROW_SIZE * count;
    let orders = rows + count;
    let all = orders + TRAILER_SIZE;
    write_rows(&mut card[0..rows], slots, count);
    write_order(&mut card[rows..orders], order, count);
    write_trailer(&mut card[orders..all], count, end);
}

// Writes the card of the list plan of the order, which ends at `end`, at the front of the lent bytes; the bytes behind it stay.
pub fn write_plan(card: &mut [u8], jobs: &Jobs, order: &[u8; MOST_JOBS], end: u16)
    requires { ((Fit jobs.now) × (Order (sheet_of jobs.now) (take (count_of jobs.now) order.now)))
        × ((end ≡ end_of (sheet_of jobs.now) (take (count_of jobs.now) order.now)) × (card_size (count_of jobs.now) ≤ length card.old)) }
    ensures { card.new
        ≡ card_of (sheet_of jobs.now) (take (count_of jobs.now) order.now)
        ++ drop (card_size (count_of jobs.now)) card.old }
{
    let slots = replay::replay(jobs, order);
    write_card(card, slots, order, jobs.count(), end);
}

// A job's end minus its departure, which may be negative.
pub fn lateness(end: u16, departure: u16) -> i32
    ensures { result ≡ lateness_of end departure }
{
    (end as i32) - (departure as i32)
}
