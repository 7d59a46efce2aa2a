// The reader of before: one pass over the records, and a second one over the labels. The host compares it with the reader of today and
// measures both; firmware does not have it.
#![tactic(auto)]

ghost use Rattle.std.specs.Prelude.{◌≡◌, ◌+◌, ◌*◌, ◌≤◌, length};
ghost use Rattle.sheet_format.specs.Figures.{most_jobs, record_size};
ghost use Rattle.sheet_format.specs.Format.{places, job_from, label_lengths};
ghost use Rattle.sheet_format.specs.Checks.{some_faulty};
ghost use Rattle.sheet.specs.Read.{reading, ReadingOf};

use checking::Refusal;
use figures::MOST_JOBS;
use records::{check_content, no_jobs, read_one};
use sheet::Reading;
use sheet_format::checks::faulty;
use sheet_format::layout::RECORD_SIZE;
use sheet_format::{Job, label_length};

// What the pass over the records finds: the jobs, the sum of the label lengths, and whether 5 fails.
#[derive(Drop)]
pub struct Records {
    pub jobs: [Job; MOST_JOBS],
    pub total: usize,
    pub faulty: bool,
}

// The pass over the records.
fn read_records(sheet: &[u8], offset: usize, count: usize) -> Records
    requires { (count ≤ most_jobs) × (offset + record_size * count ≤ length sheet.now) }
    ensures { (result.jobs ≡ places count (job_from sheet.now offset))
        × (result.total ≡ label_lengths count (job_from sheet.now offset))
        × (result.faulty ≡ some_faulty count (job_from sheet.now offset)) }
{
    let mut jobs = no_jobs();
    let mut total: usize = 0;
    let mut found = false;
    for i in 0..count {
        let job = read_one(sheet, offset + RECORD_SIZE * i);
        jobs[i] = job;
        total += label_length(job);
        found |= faulty(count, job);
    }
    Records {
        jobs,
        total,
        faulty: found,
    }
}

// Reading: the jobs of a sheet, n, N and the changeover, or the first refusal of 1 to 7 and 19.
fn try_read(sheet: &[u8]) -> Result<Reading, Refusal>
    ensures { ReadingOf sheet.now result }
{
    trailer::check(sheet)?;
    let offset = trailer::offset(sheet) as usize;
    let count = trailer::count(sheet) as usize;
    let cabinet = trailer::cabinet(sheet);
    let found = read_records(sheet, offset, count);
    let jobs = found.jobs;
    check_content(jobs, count, found.faulty, found.total, &sheet[..offset])?;
    Ok(Reading {
        refusal: 0,
        jobs,
        count,
        modules: cabinet.modules,
        changeover: cabinet.changeover,
    })
}

// The same as one answer, for callers in C.
pub fn read(sheet: &[u8]) -> Reading
    ensures { result ≡ reading sheet.now }
{
    match try_read(sheet) {
        Ok(answer) => answer,
        Err(refusal) => sheet::refused(refusal.number()),
    }
}

// The same for C and Rust.
#[unsafe(no_mangle)]
pub extern "C" fn depot_read_two_passes(sheet: &[u8]) -> Reading
    ensures { result ≡ reading sheet.now }
{
    read(sheet)
}
