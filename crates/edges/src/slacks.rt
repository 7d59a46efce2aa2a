// The edges of slack.
ghost use Rattle.std.specs.Prelude.{◌≤◌};

use super::lines::print_case;
use super::plans::first;
use bits::Set;
use sheet_format::Job;
use slack::Slacks;
use std::io;

// The lengths of the sheets of no jobs and of twenty jobs with labels of one byte.
const NONE: usize = 10;

const TWENTY: usize = 270;

// What the working memory holds before a call.
const WORK_BYTE: u8 = 7;

// A job of a day.
fn job(earlier: u32, departure: u16) -> Job {
    Job {
        label_len: 1,
        modules: 1,
        minutes: 1440,
        earlier,
        departure,
        arrival: 0,
    }
}

// Twenty jobs, each behind all before it.
fn chain(departure: u16) -> [Job; 20] {
    let mut jobs = [job(0, departure); 20];
    let mut before: u32 = 0;
    let mut j: usize = 0;
    while j < 20 {
        jobs[j] = job(before, departure);
        before = before | (1u32 << j);
        j += 1;
    }
    jobs
}

fn late(slack: i32) -> u32
    ensures { result ≤ 1 }
{
    if slack < 0 { 1 } else { 0 }
}

// How many jobs have slack below 0.
fn late_jobs(answer: Slacks) -> u32 {
    let mut n: u32 = 0;
    let mut j: usize = 0;
    while j < 20 {
        let one = answer.jobs[j];
        n += late(one.slack);
        j += 1;
    }
    n
}

// Asks for the slack of a sheet, and prints the number, how many jobs are late, how many marks of the last place others imply, and the
// first byte of the memory.
fn ask(rt: &impl Print, name: &str, s: &[u8]) -> io::Result<()> {
    let mut work = [WORK_BYTE; 1];
    let answer = slack::slack(s, &mut work);
    let last = answer.jobs[19];
    print_case(rt, name, answer.refusal)?;
    print_case(rt, "  jobs too late", late_jobs(answer))?;
    print_case(rt, "  marks implied", last.implied.size())?;
    print_case(rt, "  first byte of the memory", first(&work))?;
    Ok(())
}

fn ask_twenty(rt: &impl Print, name: &str, jobs: [Job; 20]) -> io::Result<()> {
    let mut s = [0u8; TWENTY];
    sheet::write(jobs, 20, &[b'B'; 20], 64, 0, &mut s);
    ask(rt, name, &s)
}

pub fn run(rt: &impl Print) -> io::Result<()> {
    let mut none = [0u8; NONE];
    sheet::write([job(0, 0); 20], 0, b"", 1, 0, &mut none);
    ask(rt, "slack without jobs", &none)?;
    ask_twenty(
        rt,
        "of twenty days one behind another, all gone at minute 0",
        chain(0),
    )?;
    ask_twenty(rt, "all gone at minute 2880", chain(2880))?;
    ask_twenty(
        rt,
        "of twenty days side by side, all gone at minute 1440",
        [job(0, 1440); 20],
    )?;
    ask_twenty(rt, "all gone at minute 1439", [job(0, 1439); 20])?;
    ask_twenty(
        rt,
        "of twenty jobs, the first before itself",
        [job(1, 0); 20],
    )?;
    ask(rt, "of no bytes", b"")?;
    Ok(())
}
