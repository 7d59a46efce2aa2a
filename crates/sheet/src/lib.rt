// Job sheets: reading and writing. The label of a job is the crate `labels`.
#![tactic(auto)]

ghost use Rattle.std.specs.Prelude.{◌≡◌, ◌+◌, ◌*◌, ◌≤◌, length};
ghost use Rattle.checking.specs.Checking.{first_failing};
ghost use Rattle.checking.specs.Refusals.{refusal_number};
ghost use Rattle.sheet_format.specs.Figures.{most_jobs, record_size, trailer_size, longest_label};
ghost use Rattle.sheet_format.specs.Format.{jobs_in, sheet_bytes, offset_of, count_of, cabinet_of, cabinet};
ghost use Rattle.sheet_format.specs.Checks.{trailer_checks};
ghost use Rattle.sheet.specs.Read.{refused, reading, ReadingOf};
ghost use Rattle.sheet.specs.Write.{over, write_refusal, write_answer, write_leaves};

use checking::Refusal;
use figures::MOST_JOBS;
use label_check::wrong_between;
use records::{no_jobs, read_one};
pub use sheet_format::Job;
use sheet_format::checks::{check_figures, faulty};
use sheet_format::layout::{RECORD_SIZE, TRAILER_SIZE};
use sheet_format::{Cabinet, label_length};

// What reading answers: refusal 0 with the jobs, n, N and the changeover, or the number of the refusal with all else 0.
#[repr(C)]
#[derive(Clone, Copy)]
pub struct Reading {
    pub refusal: u32,
    pub jobs: [Job; MOST_JOBS],
    pub count: usize,
    pub modules: u16,
    pub changeover: u16,
}

// Where a label lies: refusal 0 with its offset in the sheet and its length, or the number of the refusal with all else 0.
#[repr(C)]
#[derive(Clone, Copy)]
pub struct LabelPlace {
    pub refusal: u32,
    pub offset: usize,
    pub length: usize,
}

// What writing answers: refusal 0 with the sheet's length, or the number of the refusal with 0.
#[repr(C)]
#[derive(Clone, Copy)]
pub struct Written {
    pub refusal: u32,
    pub length: usize,
}

// What a refused reading answers.
pub fn refused(refusal: u32) -> Reading
    ensures { result ≡ refused refusal }
{
    let jobs = no_jobs();
    Reading {
        refusal,
        jobs,
        count: 0,
        modules: 0,
        changeover: 0,
    }
}

// One pass over the records, each with its label: what reading answers where 1 to 4 and 19 pass. A label is looked at where it ends within the
// labels; where one does not, 6 fails.
fn read_records(
    sheet: &[u8],
    offset: usize,
    count: usize,
    cabinet: Cabinet,
) -> Result<Reading, Refusal>
    requires { (first_failing (trailer_checks sheet.now) ≡ 0)
        × (offset ≡ offset_of sheet.now) × (count ≡ count_of sheet.now)
        × (cabinet ≡ cabinet_of sheet.now) }
    ensures { ReadingOf sheet.now result }
{
    let jobs = no_jobs();
    let mut answer = Reading {
        refusal: 0,
        jobs,
        count,
        modules: cabinet.modules,
        changeover: cabinet.changeover,
    };
    let mut total: usize = 0;
    let mut wrong = false;
    for i in 0..count {
        let job = read_one(sheet, offset + RECORD_SIZE * i);
        if faulty(count, job) {
            return Err(Refusal::WrongRecord);
        }
        answer.jobs[i] = job;
        let to = total + label_length(job);
        wrong |= wrong_between(&sheet[..offset], total, to);
        total = to;
    }
    if total != offset {
        return Err(Refusal::LabelLengths);
    }
    if wrong {
        return Err(Refusal::WrongLabel);
    }
    Ok(answer)
}

// The jobs of a sheet, n, N and the changeover, or the first refusal of 1, 2, 3, 19 and 4 to 7.
pub fn try_read(sheet: &[u8]) -> Result<Reading, Refusal>
    ensures { ReadingOf sheet.now result }
{
    trailer::check(sheet)?;
    let offset = trailer::offset(sheet) as usize;
    let count = trailer::count(sheet) as usize;
    read_records(sheet, offset, count, trailer::cabinet(sheet))
}

// The same as one answer, for callers in C.
pub fn read(sheet: &[u8]) -> Reading
    ensures { result ≡ reading sheet.now }
{
    match try_read(sheet) {
        Ok(answer) => answer,
        Err(refusal) => refused(refusal.number()),
    }
}

// The first refusal of 2, 3, 19, 5, 6, 7 and 10, for a lent buffer of `room` bytes.
fn check_writing(
    jobs: [Job; MOST_JOBS],
    count: usize,
    labels: &[u8],
    cabinet: Cabinet,
    room: usize,
) -> Result<(), Refusal>
    ensures { refusal_number result ≡ write_refusal (jobs_in jobs) count labels.now cabinet room }
{
    check_figures(count, cabinet)?;
    let found = records::survey(jobs, count);
    records::check_content(jobs, count, found.faulty, found.total, labels)?;
    if room < labels.len() + RECORD_SIZE * count + TRAILER_SIZE {
        return Err(Refusal::ShortBuffer);
    }
    Ok(())
}

// Labels, records and trailer, each into its own part of the buffer, one behind another; the length of the three.
fn write_parts(
    jobs: [Job; MOST_JOBS],
    count: usize,
    labels: &[u8],
    cabinet: Cabinet,
    out: &mut [u8],
) -> usize
    requires { (count ≤ most_jobs) × (length labels.now ≤ count * longest_label)
        × (length labels.now + record_size * count + trailer_size ≤ length out.old) }
    ensures { (result ≡ length labels.now + record_size * count + trailer_size)
        × (out.new ≡ over (sheet_bytes (jobs_in jobs) count labels.now cabinet) out.old) }
{
    let offset = labels.len();
    let end = offset + RECORD_SIZE * count;
    let length = end + TRAILER_SIZE;
    words::copy(&mut out[..offset], labels);
    records::write_all(&mut out[offset..end], jobs, count);
    trailer::write(&mut out[end..length], offset as u32, count as u16, cabinet);
    length
}

// Writes the sheet of the first `count` jobs into the front of the lent buffer.
pub fn write(
    jobs: [Job; MOST_JOBS],
    count: usize,
    labels: &[u8],
    modules: u16,
    changeover: u16,
    out: &mut [u8],
) -> Written
    ensures { (result ≡ write_answer (jobs_in jobs) count labels.now (cabinet modules changeover) out.old)
        × (out.new ≡ write_leaves (jobs_in jobs) count labels.now (cabinet modules changeover) out.old) }
{
    let cabinet = Cabinet {
        modules,
        changeover,
    };
    match check_writing(jobs, count, labels, cabinet, out.len()) {
        Ok(()) => Written {
            refusal: 0,
            length: write_parts(jobs, count, labels, cabinet, out),
        },
        Err(refusal) => Written {
            refusal: refusal.number(),
            length: 0,
        },
    }
}
