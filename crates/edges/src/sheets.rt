// The edges of job sheets, a line a case.
ghost use Rattle.std.specs.Prelude.{◌<◌, ◌≤◌};

use super::lines::{print_case, print_number};
use figures::MOST_JOBS;
use sheet_format::Job;
use sheet_format::layout::{LONGEST_LABEL, LONGEST_SHEET, TRAILER_SIZE};
use std::io;

// The length of the sheet of one job with a label of one byte, and where its parts begin.
const SMALL: usize = 23;

const LABEL: usize = 0;

const RECORD: usize = 1;

const TRAILER: usize = 13;

fn job(label_len: u8, minutes: u16, earlier: u32, departure: u16, arrival: u16) -> Job {
    Job {
        label_len,
        modules: 1,
        minutes,
        earlier,
        departure,
        arrival,
    }
}

// The sheet of one job, labelled A, on a cabinet of two modules.
fn small() -> [u8; SMALL] {
    let mut s = [0u8; SMALL];
    sheet::write([job(1, 10, 0, 30, 0); MOST_JOBS], 1, b"A", 2, 0, &mut s);
    s
}

// That sheet with the byte at `at` changed, or the number of two bytes there.
fn changed(at: usize, wide: bool, x: u16) -> [u8; SMALL] {
    let mut s = small();
    if at < SMALL {
        s[at] = (x % 256) as u8;
    }
    if wide {
        if at < SMALL - 1 {
            s[at + 1] = (x / 256) as u8;
        }
    }
    s
}

fn read_number(rt: &impl Print, name: &str, at: usize, wide: bool, x: u16) -> io::Result<()> {
    let s = changed(at, wide, x);
    print_number(rt, name, x, sheet::read(&s).refusal)
}

// Just below the least, the least, the largest, just above it.
fn read_range(
    rt: &impl Print,
    name: &str,
    at: usize,
    wide: bool,
    least: u16,
    largest: u16,
) -> io::Result<()>
    requires { (0 < least) × (largest < 65535) }
{
    read_number(rt, name, at, wide, least - 1)?;
    read_number(rt, name, at, wide, least)?;
    read_number(rt, name, at, wide, largest)?;
    read_number(rt, name, at, wide, largest + 1)?;
    Ok(())
}

fn read_records(rt: &impl Print) -> io::Result<()> {
    // a label length of 16 is in range, but there is one label byte
    read_range(rt, "label length", RECORD, false, 1, 16)?;
    read_number(rt, "needed modules", RECORD + 1, false, 0)?;
    read_number(rt, "needed modules", RECORD + 1, false, 255)?;
    read_range(rt, "minutes", RECORD + 2, true, 1, 1440)?;
    // bit n - 1 and bit n
    read_number(rt, "earlier jobs", RECORD + 4, true, 1)?;
    read_number(rt, "earlier jobs", RECORD + 4, true, 2)?;
    read_range(rt, "departure", RECORD + 8, true, 1, 2880)?;
    read_range(rt, "arrival", RECORD + 10, true, 1, 1440)?;
    Ok(())
}

fn read_labels_and_trailer(rt: &impl Print) -> io::Result<()> {
    // 32 is a label byte, but not alone
    read_range(rt, "label byte", LABEL, false, 32, 126)?;
    read_number(rt, "label byte", LABEL, false, 33)?;
    read_number(rt, "record offset", TRAILER, true, 0)?;
    read_number(rt, "record offset", TRAILER, true, 2)?;
    // an offset near 2 to the 32
    read_number(rt, "record offset, upper half", TRAILER + 2, true, 65535)?;
    read_number(rt, "jobs", TRAILER + 4, true, 20)?;
    read_number(rt, "jobs", TRAILER + 4, true, 21)?;
    read_range(rt, "modules", TRAILER + 6, true, 1, 64)?;
    read_range(rt, "changeover", TRAILER + 8, true, 1, 30)?;
    Ok(())
}

// Reads that sheet with another label byte, label length and number of minutes.
fn read_three(
    rt: &impl Print,
    name: &str,
    label_byte: u8,
    label_len: u8,
    minutes: u8,
) -> io::Result<()> {
    let mut s = small();
    s[LABEL] = label_byte;
    s[RECORD] = label_len;
    s[RECORD + 2] = minutes;
    print_case(rt, name, sheet::read(&s).refusal)
}

// Check 5 before 6 before 7: minutes, label length and label byte are wrong at once, then one after another is put right.
fn read_first(rt: &impl Print) -> io::Result<()> {
    read_three(rt, "minutes, label length and label byte wrong", 32, 16, 0)?;
    read_three(rt, "label length and label byte wrong", 32, 16, 10)?;
    read_three(rt, "label byte wrong", 32, 1, 10)?;
    read_three(rt, "nothing wrong", b'A', 1, 10)?;
    Ok(())
}

// The length of the sheet of two jobs with labels of three bytes in all.
const PAIR: usize = 37;

// Reads the sheet of two jobs whose labels are so long and have another byte in their middle.
fn read_pair(rt: &impl Print, name: &str, first: u8, second: u8, label_byte: u8) -> io::Result<()> {
    let mut s = [0u8; PAIR];
    let mut jobs = [job(1, 10, 0, 30, 0); MOST_JOBS];
    jobs[0] = job(2, 10, 0, 30, 0);
    sheet::write(jobs, 2, b"ABC", 2, 0, &mut s);
    s[1] = label_byte;
    s[3] = first;
    s[15] = second;
    print_case(rt, name, sheet::read(&s).refusal)
}

// The length of the sheet of one job with a label of three bytes.
const SPACED: usize = 25;

// The sheet of one job whose label has another byte at a place.
fn spaced(at: usize, label_byte: u8) -> [u8; SPACED] {
    let mut s = [0u8; SPACED];
    sheet::write([job(3, 10, 0, 30, 0); MOST_JOBS], 1, b"A1B", 2, 0, &mut s);
    if at < SPACED {
        s[at] = label_byte;
    }
    s
}

fn read_spaced(rt: &impl Print, name: &str, at: usize, label_byte: u8) -> io::Result<()> {
    let s = spaced(at, label_byte);
    show_label(rt, name, &s, 0)
}

// A space inside a label, and at its edges; where two labels stand one behind the other it is at the edge of one of them.
fn read_spaces(rt: &impl Print) -> io::Result<()> {
    read_spaced(rt, "a space inside", 1, 32)?;
    read_spaced(rt, "a space first", 0, 32)?;
    read_spaced(rt, "a space last", 2, 32)?;
    read_spaced(rt, "byte 31 inside", 1, 31)?;
    read_pair(rt, "two labels, a space at the end of the first", 2, 1, 32)?;
    read_pair(
        rt,
        "two labels, a space at the front of the second",
        1,
        2,
        32,
    )?;
    read_pair(rt, "two labels without a space", 2, 1, 33)?;
    Ok(())
}

// The longest sheet, of twenty jobs with labels of sixteen bytes, and a byte more.
fn long() -> [u8; LONGEST_SHEET + 1] {
    let mut s = [0u8; LONGEST_SHEET + 1];
    sheet::write(
        [job(16, 10, 0, 30, 0); MOST_JOBS],
        MOST_JOBS,
        &[b'B'; MOST_JOBS * LONGEST_LABEL],
        64,
        0,
        &mut s,
    );
    s
}

// The shortest sheet: no jobs, one module.
fn short() -> [u8; TRAILER_SIZE] {
    let mut s = [0u8; TRAILER_SIZE];
    sheet::write([job(1, 10, 0, 30, 0); MOST_JOBS], 0, b"", 1, 0, &mut s);
    s
}

// Reads the first bytes of a sheet.
fn read_front(rt: &impl Print, name: &str, s: &[u8], count: usize) -> io::Result<()> {
    if count <= s.len() {
        print_case(rt, name, sheet::read(&s[0..count]).refusal)?;
    }
    Ok(())
}

fn one_if(yes: bool) -> usize
    ensures { result ≤ 1 }
{
    if yes { 1 } else { 0 }
}

// Reads every front of a sheet, from no byte to all but one, and counts those that get the number.
fn count_fronts(s: &[u8], number: u32) -> usize {
    let mut found: usize = 0;
    let mut count: usize = 0;
    while count < s.len() {
        found += one_if(sheet::read(&s[0..count]).refusal == number);
        count += 1;
    }
    found
}

fn print_fronts(rt: &impl Print, s: &[u8], number: u32) -> io::Result<()> {
    let found = count_fronts(s, number);
    println!(rt; "fronts of the longest sheet that get {number}: {found}")
}

fn read_fronts(rt: &impl Print) -> io::Result<()> {
    let long = long();
    print_fronts(rt, &long, 0)?;
    print_fronts(rt, &long, 1)?;
    print_fronts(rt, &long, 2)?;
    print_fronts(rt, &long, 3)?;
    print_fronts(rt, &long, 19)?;
    print_fronts(rt, &long, 4)?;
    Ok(())
}

fn read_lengths(rt: &impl Print) -> io::Result<()> {
    let long = long();
    read_front(
        rt,
        "20 jobs, labels of 16 bytes, 570 bytes",
        &long,
        LONGEST_SHEET,
    )?;
    read_front(rt, "571 bytes", &long, LONGEST_SHEET + 1)?;
    let short = short();
    read_front(rt, "no jobs, 10 bytes", &short, TRAILER_SIZE)?;
    read_front(rt, "9 bytes", &short, TRAILER_SIZE - 1)?;
    Ok(())
}

// Writes one job, with as many of the label bytes as its label is long.
fn write_one(rt: &impl Print, name: &str, x: u16, job: Job, labels: &[u8]) -> io::Result<()> {
    let mut out = [0u8; 64];
    let count = job.label_len as usize;
    if count <= labels.len() {
        print_number(
            rt,
            name,
            x,
            sheet::write([job; MOST_JOBS], 1, &labels[0..count], 2, 0, &mut out).refusal,
        )?;
    }
    Ok(())
}

fn write_job(
    rt: &impl Print,
    name: &str,
    x: u16,
    label_len: u8,
    minutes: u16,
    earlier: u32,
    departure: u16,
    arrival: u16,
) -> io::Result<()> {
    write_one(
        rt,
        name,
        x,
        job(label_len, minutes, earlier, departure, arrival),
        &[b'A'; 17],
    )
}

fn write_label_byte(rt: &impl Print, name: &str, label_byte: u8) -> io::Result<()> {
    write_one(
        rt,
        name,
        label_byte as u16,
        job(1, 10, 0, 30, 0),
        &[label_byte; 16],
    )
}

fn write_records(rt: &impl Print) -> io::Result<()> {
    write_job(rt, "writing, label length", 0, 0, 10, 0, 30, 0)?;
    write_job(rt, "writing, label length", 1, 1, 10, 0, 30, 0)?;
    write_job(rt, "writing, label length", 16, 16, 10, 0, 30, 0)?;
    write_job(rt, "writing, label length", 17, 17, 10, 0, 30, 0)?;
    write_job(rt, "writing, minutes", 1440, 1, 1440, 0, 30, 0)?;
    write_job(rt, "writing, minutes", 1441, 1, 1441, 0, 30, 0)?;
    write_job(rt, "writing, earlier jobs", 1, 1, 10, 1, 30, 0)?;
    write_job(rt, "writing, earlier jobs", 2, 1, 10, 2, 30, 0)?;
    write_job(rt, "writing, departure", 2880, 1, 10, 0, 2880, 0)?;
    write_job(rt, "writing, departure", 2881, 1, 10, 0, 2881, 0)?;
    write_job(rt, "writing, arrival", 1440, 1, 10, 0, 30, 1440)?;
    write_job(rt, "writing, arrival", 1441, 1, 10, 0, 30, 1441)?;
    Ok(())
}

fn write_label_bytes(rt: &impl Print) -> io::Result<()> {
    write_label_byte(rt, "writing, label byte", 31)?;
    write_label_byte(rt, "writing, label byte", 32)?;
    write_label_byte(rt, "writing, label byte", 33)?;
    write_label_byte(rt, "writing, label byte", 126)?;
    write_label_byte(rt, "writing, label byte", 127)?;
    Ok(())
}

// Writes one job with a label of three bytes.
fn write_spaced(rt: &impl Print, name: &str, label: &[u8]) -> io::Result<()> {
    let mut out = [0u8; 64];
    let written = sheet::write([job(3, 10, 0, 30, 0); MOST_JOBS], 1, label, 2, 0, &mut out);
    print_case(rt, name, written.refusal)
}

fn write_spaces(rt: &impl Print) -> io::Result<()> {
    write_spaced(rt, "writing, a space inside", b"A B")?;
    write_spaced(rt, "writing, a space first", b" AB")?;
    write_spaced(rt, "writing, a space last", b"AB ")?;
    write_spaced(rt, "writing, byte 31 inside", b"A\x1fB")?;
    Ok(())
}

// Writes jobs with labels of sixteen bytes into the first bytes.
fn write_front(
    rt: &impl Print,
    name: &str,
    jobs: usize,
    modules: u16,
    changeover: u16,
    out: &mut [u8],
    room: usize,
) -> io::Result<()> {
    if room <= out.len() {
        let written = sheet::write(
            [job(16, 10, 0, 30, 0); MOST_JOBS],
            jobs,
            &[b'B'; MOST_JOBS * LONGEST_LABEL],
            modules,
            changeover,
            &mut out[0..room],
        );
        print_case(rt, name, written.refusal)?;
    }
    Ok(())
}

fn write_long(
    rt: &impl Print,
    name: &str,
    jobs: usize,
    modules: u16,
    changeover: u16,
    room: usize,
) -> io::Result<()> {
    write_front(
        rt,
        name,
        jobs,
        modules,
        changeover,
        &mut [0u8; LONGEST_SHEET],
        room,
    )
}

fn write_sizes(rt: &impl Print) -> io::Result<()> {
    write_long(
        rt,
        "writing, 20 jobs into 570 bytes",
        20,
        64,
        0,
        LONGEST_SHEET,
    )?;
    write_long(
        rt,
        "writing, 20 jobs into 569 bytes",
        20,
        64,
        0,
        LONGEST_SHEET - 1,
    )?;
    write_long(rt, "writing, 21 jobs", 21, 64, 0, LONGEST_SHEET)?;
    write_long(rt, "writing, modules 0", 20, 0, 0, LONGEST_SHEET)?;
    write_long(rt, "writing, modules 65", 20, 65, 0, LONGEST_SHEET)?;
    write_long(rt, "writing, changeover 30", 20, 64, 30, LONGEST_SHEET)?;
    write_long(rt, "writing, changeover 31", 20, 64, 31, LONGEST_SHEET)?;
    write_long(
        rt,
        "writing, modules 65 and changeover 31",
        20,
        65,
        31,
        LONGEST_SHEET,
    )?;
    Ok(())
}

fn show_label(rt: &impl Print, name: &str, s: &[u8], job: usize) -> io::Result<()> {
    print_case(rt, name, labels::label_refusal(s, job))?;
    rt.write_all(labels::label(s, job))?;
    println!(rt)
}

fn show_labels(rt: &impl Print) -> io::Result<()> {
    let s = small();
    show_label(rt, "label of job 0", &s, 0)?;
    show_label(rt, "label of job 1", &s, 1)?;
    let t = changed(RECORD + 2, true, 0);
    show_label(rt, "label of job 0, minutes 0", &t, 0)?;
    Ok(())
}

pub fn run(rt: &impl Print) -> io::Result<()> {
    read_records(rt)?;
    read_labels_and_trailer(rt)?;
    read_first(rt)?;
    read_spaces(rt)?;
    read_fronts(rt)?;
    read_lengths(rt)?;
    write_records(rt)?;
    write_label_bytes(rt)?;
    write_spaces(rt)?;
    write_sizes(rt)?;
    show_labels(rt)?;
    Ok(())
}
