// The records of a sheet: read, written, and with the labels checked.
#![tactic(auto)]

ghost use Rattle.std.specs.Prelude.{◌≡◌, ◌+◌, ◌*◌, ◌≤◌, length};
ghost use Rattle.counting.specs.Counting.{joined};
ghost use Rattle.checking.specs.Checking.{first_failing};
ghost use Rattle.checking.specs.Refusals.{refusal_number};
ghost use Rattle.sheet_format.specs.Figures.{most_jobs, record_size};
ghost use Rattle.sheet_format.specs.Format.{no_jobs, jobs_in, label_lengths};
ghost use Rattle.sheet_format.specs.Format.{record_at, record_bytes};
ghost use Rattle.sheet_format.specs.Checks.{some_faulty, content_checks};

use checking::Refusal;
use figures::MOST_JOBS;
use label_check::wrong_labels;
use sheet_format::checks::faulty;
use sheet_format::layout::RECORD_SIZE;
use sheet_format::{Job, label_length};
use words::Number;

// What the writer's pass over its jobs finds.
#[derive(Drop)]
pub struct Surveyed {
    pub total: usize,
    pub faulty: bool,
}

// A list without jobs: every place 0.
pub fn no_jobs() -> [Job; MOST_JOBS]
    ensures { result ≡ no_jobs }
{
    [Job::default(); MOST_JOBS]
}

// The job of the record that begins at `at`.
pub fn read_one(s: &[u8], at: usize) -> Job
    requires { at + record_size ≤ length s.now }
    ensures { result ≡ record_at s.now at }
{
    Job {
        label_len: s[at],
        modules: s[at + 1],
        minutes: u16::read(s, at + 2),
        earlier: u32::read(s, at + 4),
        departure: u16::read(s, at + 8),
        arrival: u16::read(s, at + 10),
    }
}

// Where the label of a job begins: the lengths of the labels before it, summed.
pub fn label_start(jobs: [Job; MOST_JOBS], job: usize) -> usize
    requires { job ≤ most_jobs }
    ensures { (result ≡ label_lengths job (jobs_in jobs)) × (result ≤ 255 * job) }
{
    let mut total: usize = 0;
    for i in 0..job {
        total += label_length(jobs[i]);
    }
    total
}

// The writer's pass over the first `count` jobs.
pub fn survey(jobs: [Job; MOST_JOBS], count: usize) -> Surveyed
    requires { count ≤ most_jobs }
    ensures { (result.total ≡ label_lengths count (jobs_in jobs)) × (result.faulty ≡ some_faulty count (jobs_in jobs)) }
{
    let mut total: usize = 0;
    let mut found = false;
    for i in 0..count {
        total += label_length(jobs[i]);
        found |= faulty(count, jobs[i]);
    }
    Surveyed {
        total,
        faulty: found,
    }
}

// The first of 5 to 7 that fails, from what the pass over the jobs found.
#[tactic(auto, unfolding(checking::specs::Checking::first_failing))]
pub fn check_content(
    jobs: [Job; MOST_JOBS],
    count: usize,
    faulty: bool,
    total: usize,
    labels: &[u8],
) -> Result<(), Refusal>
    requires { (count ≤ most_jobs) × (faulty ≡ some_faulty count (jobs_in jobs)) × (total ≡ label_lengths count (jobs_in jobs)) }
    ensures { refusal_number result ≡ first_failing (content_checks count (jobs_in jobs) labels.now) }
{
    if faulty {
        return Err(Refusal::WrongRecord);
    }
    if total != labels.len() {
        return Err(Refusal::LabelLengths);
    }
    if wrong_labels(jobs, count, labels) {
        return Err(Refusal::WrongLabel);
    }
    Ok(())
}

// A record, into its own bytes.
fn write_one(part: &mut [u8], job: Job)
    requires { length part.old ≡ record_size }
    ensures { part.new ≡ record_bytes job }
{
    part[0] = job.label_len;
    part[1] = job.modules;
    u16::write(part, 2, job.minutes);
    u32::write(part, 4, job.earlier);
    u16::write(part, 8, job.departure);
    u16::write(part, 10, job.arrival);
}

// The records of the first `count` jobs, one behind another.
pub fn write_all(part: &mut [u8], jobs: [Job; MOST_JOBS], count: usize)
    requires { (count ≤ most_jobs) × (length part.old ≡ record_size * count) }
    ensures { part.new ≡ joined count (λ i. record_bytes (jobs_in jobs i)) }
{
    for i in 0..count {
        let at = RECORD_SIZE * i;
        let to = at + RECORD_SIZE;
        write_one(&mut part[at..to], jobs[i]);
    }
}
