// The label of a job: of a sheet, and of what reading the sheet answered.
#![tactic(auto)]

ghost use Rattle.std.specs.Prelude.{◌≡◌, ◌+◌};
ghost use Rattle.checking.specs.Checking.{first_failing};
ghost use Rattle.sheet.specs.Read.{reading};
ghost use Rattle.sheet.specs.Label.{label_refusal, label_of, label_at, label_place, place_checks, place_in};

use figures::MOST_JOBS;
use records::label_start;
use sheet::{LabelPlace, Reading};
use sheet_format::label_length;

// The number of a label call on what reading answered: its own refusal, then 14, or 0 where there is a label. It stays a number: C may
// lend a reading with any.
#[tactic(auto, unfolding(checking::specs::Checking::first_failing))]
fn place_refusal(found: Reading, job: usize) -> u32
    ensures { result ≡ first_failing (place_checks found job) }
{
    let refusal = found.refusal;
    if refusal != 0 {
        return refusal;
    }
    if found.count <= job || MOST_JOBS <= job {
        return 14;
    }
    0
}

// Where the label of a job lies in the sheet that was read: between two summed label lengths. The sheet is not read again.
pub fn place_in(found: Reading, job: usize) -> LabelPlace
    ensures { result ≡ place_in found job }
{
    let refusal = place_refusal(found, job);
    if refusal != 0 {
        return LabelPlace {
            refusal,
            offset: 0,
            length: 0,
        };
    }
    let jobs = found.jobs;
    LabelPlace {
        refusal: 0,
        offset: label_start(jobs, job),
        length: label_length(jobs[job]),
    }
}

// Where the label of a job lies in the sheet.
pub fn label_place(sheet: &[u8], job: usize) -> LabelPlace
    ensures { result ≡ label_place sheet.now job }
{
    place_in(sheet::read(sheet), job)
}

// The number of a label call: the first refusal of 1 to 7, then 14, or 0 where there is a label.
pub fn label_refusal(sheet: &[u8], job: usize) -> u32
    ensures { result ≡ label_refusal sheet.now job }
{
    let place = label_place(sheet, job);
    place.refusal
}

// The label of a job of the sheet that was read: that very part of the sheet, or an empty part where there is none.
pub fn label_in(sheet: &[u8], found: Reading, job: usize) -> &[u8]
    requires { found ≡ reading sheet.now }
    ensures { (result.now ≡ label_of sheet.now job)
        × (result.ref_ptr ≡ (sheet.entry.ref_ptr.0, label_at sheet.now job + sheet.entry.ref_ptr.1)) }
{
    let place = place_in(found, job);
    let from = place.offset;
    let to = from + place.length;
    &sheet[from..to]
}

// The label of a job: that very part of the sheet, or an empty part where the call is refused.
pub fn label(sheet: &[u8], job: usize) -> &[u8]
    ensures { (result.now ≡ label_of sheet.now job)
        × (result.ref_ptr ≡ (sheet.entry.ref_ptr.0, label_at sheet.now job + sheet.entry.ref_ptr.1)) }
{
    label_in(sheet, sheet::read(sheet), job)
}
