// The edges of the use of the cabinet.
use super::lines::print_case;
use super::plans::{first, job};
use occupancy::Usage;
use sheet_format::Job;
use std::io;

// The lengths of the sheets of no jobs, of one job and of twenty jobs with labels of one byte.
const NONE: usize = 10;

const ONE: usize = 23;

const TWENTY: usize = 270;

// What the lent memory holds before a call.
const WORK_BYTE: u8 = 7;

// Asks for the use of the cabinet, and prints the number, the figures and what then stands first in the memory.
fn use_of(rt: &impl Print, name: &str, s: &[u8]) -> io::Result<()> {
    let mut work = [WORK_BYTE; 4096];
    let answer: Usage = usage::used(s, &mut work);
    print_case(rt, name, answer.refusal)?;
    print_case(rt, "  per mille", answer.per_mille)?;
    print_case(rt, "  remainder", answer.remainder)?;
    print_case(rt, "  first byte of the memory", first(&work))?;
    Ok(())
}

// Of one job on 64 modules.
fn use_one(rt: &impl Print, name: &str, only: Job) -> io::Result<()> {
    let mut s = [0u8; ONE];
    sheet::write([only; 20], 1, b"A", 64, 0, &mut s);
    use_of(rt, name, &s)
}

// Of twenty jobs that are alike, on 64 modules.
fn use_twenty(rt: &impl Print, name: &str, each: Job, changeover: u16) -> io::Result<()> {
    let mut s = [0u8; TWENTY];
    sheet::write([each; 20], 20, &[b'B'; 20], 64, changeover, &mut s);
    use_of(rt, name, &s)
}

pub fn run(rt: &impl Print) -> io::Result<()> {
    let mut none = [0u8; NONE];
    sheet::write([job(1, 1, 0, 0); 20], 0, b"", 64, 0, &mut none);
    use_of(rt, "the use by no jobs", &none)?;
    use_one(rt, "the use by one job of all modules", job(64, 1440, 0, 0))?;
    use_one(rt, "by one minute that arrives at 1440", job(1, 1, 0, 1440))?;
    use_one(rt, "by a job before itself", job(1, 1, 1, 0))?;
    use_twenty(
        rt,
        "by 20 jobs of 1440 minutes one after another",
        job(64, 1440, 0, 0),
        0,
    )?;
    use_twenty(
        rt,
        "the same with changeovers of 30",
        job(64, 1440, 0, 0),
        30,
    )?;
    use_twenty(
        rt,
        "the same, all arriving at 1440",
        job(64, 1440, 0, 1440),
        30,
    )?;
    use_of(rt, "the use by no bytes", b"")?;
    Ok(())
}
