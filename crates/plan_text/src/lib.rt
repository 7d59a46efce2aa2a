// The lines of a plan, from its sheet and its card, and of a refusal.
#![tactic(auto)]

ghost use Rattle.std.specs.Prelude.{◌≡◌, ◌<◌, length};
ghost use Rattle.figures.specs.Figures.{most_jobs};
ghost use Rattle.sheet.specs.Read.{reading};
ghost use Rattle.text.specs.Texts.{empty, adding};
ghost use Rattle.plan_text.specs.Printed.{plan_line, job_line, refused_line, longest_card};
ghost use Rattle.plan_text.specs.Rows.{row_line, row_lines, card_lines};

use card::{ROW_END, ROW_MODULES, ROW_SIZE, TRAILER_END, TRAILER_SIZE};
use figures::MOST_JOBS;
use labels::label_in;
use sheet::Reading;
use text::Text;
use words::Number;

// The length of the longest card.
pub const LONGEST_CARD: usize = (ROW_SIZE + 1) * MOST_JOBS + TRAILER_SIZE;

// The text with a job's line behind it.
fn with_line(text: Text, label: &[u8], start: u16, end: u16, departure: u16, modules: u64) -> Text
    ensures { result ≡ adding text (job_line label.now start end departure modules) }
{
    let mut next = text::with_decimal(text, start as u32, b' ');
    next = text::with_decimal(next, end as u32, b' ');
    next = text::with_signed(next, card::lateness(end, departure), b' ');
    next = text::with_hexadecimal(next, modules, b' ');
    text::with_field(next, label, b'\n')
}

// The text with the line of job j, whose row is on the card.
fn with_row(text: Text, sheet: &[u8], card: &[u8], found: Reading, j: usize, departure: u16) -> Text
    requires { (j < most_jobs) × (found ≡ reading sheet.now) × (length card.now ≡ longest_card) }
    ensures { result ≡ adding text (row_line sheet.now card.now departure j) }
{
    let at = ROW_SIZE * j;
    let start = u16::read(card, at);
    let end = u16::read(card, at + ROW_END);
    let modules = u64::read(card, at + ROW_MODULES);
    let label = label_in(sheet, found, j);
    with_line(text, label, start, end, departure, modules)
}

// The text with a line per job, in sheet order.
fn with_rows(text: Text, sheet: &[u8], card: &[u8], found: Reading) -> Text
    requires { (found ≡ reading sheet.now) × (length card.now ≡ longest_card) }
    ensures { result ≡ adding text (row_lines sheet.now card.now) }
{
    let jobs = found.count;
    let mut next = text;
    for j in 0..jobs {
        let job = found.jobs[j];
        next = with_row(next, sheet, card, found, j, job.departure);
    }
    next
}

// The first line of a plan.
fn plan_line(end: u16, jobs: u32, modules: u16) -> Text
    ensures { result ≡ adding empty (plan_line end jobs modules) }
{
    let mut text = text::with_field(text::empty(), b"plan", b' ');
    text = text::with_decimal(text, end as u32, b' ');
    text = text::with_decimal(text, jobs, b' ');
    text::with_decimal(text, modules as u32, b'\n')
}

// The lines of the plan on the card.
pub fn plan_lines(sheet: &[u8], card: &[u8]) -> Text
    requires { length card.now ≡ longest_card }
    ensures { result ≡ adding empty (card_lines sheet.now card.now) }
{
    let found = sheet::read(sheet);
    let jobs = found.count;
    let end = u16::read(card, (ROW_SIZE + 1) * jobs + TRAILER_END);
    let text = plan_line(end, jobs as u32, found.modules);
    with_rows(text, sheet, card, found)
}

// The line of a refused sheet.
pub fn refused_line(number: u32) -> Text
    ensures { result ≡ adding empty (refused_line number) }
{
    let text = text::with_field(text::empty(), b"refused", b' ');
    text::with_decimal(text, number, b'\n')
}
