// The trailer of a sheet, and the checks on it.
#![tactic(auto)]

ghost use Rattle.std.specs.Prelude.{◌≡◌, ◌≤◌, length};
ghost use Rattle.checking.specs.Checking.{first_failing};
ghost use Rattle.checking.specs.Refusals.{refusal_number};
ghost use Rattle.sheet_format.specs.Figures.{trailer_size};
ghost use Rattle.sheet_format.specs.Format.{trailer_bytes, offset_of, count_of, cabinet_of};
ghost use Rattle.sheet_format.specs.Checks.{trailer_checks};

use checking::Refusal;
use sheet_format::Cabinet;
use sheet_format::checks::{check_figures, outside};
use sheet_format::layout::{LONGEST_SHEET, RECORD_SIZE, TRAILER_SIZE};
use words::Number;

// The offset of the first record.
pub fn offset(sheet: &[u8]) -> u32
    requires { trailer_size ≤ length sheet.now }
    ensures { result ≡ offset_of sheet.now }
{
    u32::read(sheet, sheet.len() - TRAILER_SIZE)
}

// n.
pub fn count(sheet: &[u8]) -> u16
    requires { trailer_size ≤ length sheet.now }
    ensures { result ≡ count_of sheet.now }
{
    u16::read(sheet, sheet.len() - TRAILER_SIZE + 4)
}

// N and the changeover.
pub fn cabinet(sheet: &[u8]) -> Cabinet
    requires { trailer_size ≤ length sheet.now }
    ensures { result ≡ cabinet_of sheet.now }
{
    Cabinet {
        modules: u16::read(sheet, sheet.len() - TRAILER_SIZE + 6),
        changeover: u16::read(sheet, sheet.len() - TRAILER_SIZE + 8),
    }
}

// The first of 1, 2, 3, 19 and 4 that fails.
pub fn check(sheet: &[u8]) -> Result<(), Refusal>
    ensures { refusal_number result ≡ first_failing (trailer_checks sheet.now) }
{
    if outside(TRAILER_SIZE, LONGEST_SHEET, sheet.len()) {
        return Err(Refusal::SheetLength);
    }
    let n = count(sheet) as usize;
    check_figures(n, cabinet(sheet))?;
    if offset(sheet) as usize + RECORD_SIZE * n + TRAILER_SIZE != sheet.len() {
        return Err(Refusal::RecordOffset);
    }
    Ok(())
}

// A trailer, into its own bytes.
pub fn write(part: &mut [u8], offset: u32, count: u16, cabinet: Cabinet)
    requires { length part.old ≡ trailer_size }
    ensures { part.new ≡ trailer_bytes offset count cabinet }
{
    u32::write(part, 0, offset);
    u16::write(part, 4, count);
    u16::write(part, 6, cabinet.modules);
    u16::write(part, 8, cabinet.changeover);
}
