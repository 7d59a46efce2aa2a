// What every planning call begins with: the sheet is read and checked, and its job table made.
#![tactic(auto)]

ghost use Rattle.std.specs.Prelude.{◌≡◌, ◌≤◌};
ghost use Rattle.figures.specs.Figures.{most_jobs};
ghost use Rattle.tables.specs.Tables.{sheet_of, count_of};
ghost use Rattle.checking.specs.Refusals.{refusal_number};
ghost use Rattle.planable.specs.Planable.{order_refusal};
ghost use Rattle.planable.specs.Results.{ReadOf, CheckedOf};

use checking::Refusal;
use tables::Jobs;

// The first of 8 and 9 that fails, of a sheet that reads.
fn check_order(jobs: &Jobs) -> Result<(), Refusal>
    requires { count_of jobs.now ≤ most_jobs }
    ensures { refusal_number result ≡ order_refusal (sheet_of jobs.now) }
{
    if job_table::over_wide(jobs) {
        return Err(Refusal::OverWide);
    }
    if circles::circular(jobs) {
        return Err(Refusal::Circular);
    }
    Ok(())
}

// Reads a sheet: its job table, or the first refusal of 1 to 7 and 19.
pub fn read_table(sheet: &[u8]) -> Result<Jobs, Refusal>
    ensures { ReadOf sheet.now result }
{
    let found = sheet::try_read(sheet)?;
    Ok(job_table::table_of(found))
}

// Reads and checks a sheet: its job table, or the first refusal of 1 to 9 and 19.
pub fn front(sheet: &[u8]) -> Result<Jobs, Refusal>
    ensures { CheckedOf sheet.now result }
{
    let jobs = read_table(sheet)?;
    check_order(&jobs)?;
    Ok(jobs)
}
