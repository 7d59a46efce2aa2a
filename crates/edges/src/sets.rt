// The edges of counting job sets.
use super::lines::print_case;
use sheet_format::Job;
use std::io;

// The lengths of the sheets of no jobs and of twenty jobs with labels of one byte.
const NONE: usize = 10;

const TWENTY: usize = 270;

fn job(earlier: u32) -> Job {
    Job {
        label_len: 1,
        modules: 1,
        minutes: 10,
        earlier,
        departure: 30,
        arrival: 0,
    }
}

// Twenty jobs, each behind the one before it.
fn chain() -> [Job; 20] {
    let mut jobs = [job(0); 20];
    let mut j: usize = 1;
    while j < 20 {
        jobs[j] = job(1u32 << (j - 1));
        j += 1;
    }
    jobs
}

// Counts the job sets of a sheet, and prints the number and the count.
fn count(rt: &impl Print, name: &str, s: &[u8]) -> io::Result<()> {
    let answer = job_sets::set_count(s);
    print_case(rt, name, answer.refusal)?;
    print_case(rt, "  job sets", answer.sets)?;
    Ok(())
}

fn count_twenty(rt: &impl Print, name: &str, jobs: [Job; 20], modules: u16) -> io::Result<()> {
    let mut s = [0u8; TWENTY];
    sheet::write(jobs, 20, &[b'B'; 20], modules, 0, &mut s);
    count(rt, name, &s)
}

pub fn run(rt: &impl Print) -> io::Result<()> {
    let mut none = [0u8; NONE];
    sheet::write([job(0); 20], 0, b"", 1, 0, &mut none);
    count(rt, "no jobs", &none)?;
    count_twenty(rt, "a chain of twenty jobs", chain(), 64)?;
    count_twenty(rt, "twenty jobs without marks", [job(0); 20], 64)?;
    count_twenty(rt, "twenty jobs, the first before itself", [job(1); 20], 64)?;
    count(rt, "no bytes", b"")?;
    Ok(())
}
