// The labels of a sheet, run together: whether one of them is wrong (check 7).
#![tactic(auto)]

ghost use Rattle.std.specs.Prelude.{◌≡◌, ◌-◌, ◌≤◌, length, take, drop};
ghost use Rattle.sheet_format.specs.Figures.{most_jobs};
ghost use Rattle.sheet_format.specs.Format.{jobs_in, label_lengths};
ghost use Rattle.sheet_format.specs.Checks.{wrong_bytes, wrong_label, wrong_labels};

use figures::MOST_JOBS;
use sheet_format::checks::outside;
use sheet_format::layout::{FIRST_LABEL_BYTE, LAST_LABEL_BYTE, SPACE};
use sheet_format::{Job, label_length};

// Whether some byte is no label byte. Every byte is looked at: without an exit the bytes of a label are compared several at a time.
fn wrong_bytes(bytes: &[u8]) -> bool
    ensures { result ≡ wrong_bytes bytes.now }
{
    let mut found = false;
    for b in bytes {
        found |= outside(FIRST_LABEL_BYTE, LAST_LABEL_BYTE, *b as usize);
    }
    found
}

// Whether a label has a byte that is none of a label, or begins or ends with a space.
#[tactic(auto, unfolding(sheet_format::specs::Checks::wrong_label))]
pub fn wrong_label(label: &[u8]) -> bool
    ensures { result ≡ wrong_label label.now }
{
    let length = label.len();
    if length == 0 {
        return false;
    }
    let first = label[0] == SPACE;
    let last = label[length - 1] == SPACE;
    wrong_bytes(label) || (first || last)
}

// Whether the label between two places is wrong. One that ends past the labels is not looked at.
pub fn wrong_between(labels: &[u8], from: usize, to: usize) -> bool
    requires { from ≤ to }
    ensures { to ≤ length labels.now → result ≡ wrong_label (take (to - from) (drop from labels.now)) }
{
    if labels.len() < to {
        return false;
    }
    wrong_label(&labels[from..to])
}

// Whether some label of the first `count` jobs is wrong, each in its own part of the labels.
pub fn wrong_labels(jobs: [Job; MOST_JOBS], count: usize, labels: &[u8]) -> bool
    requires { (count ≤ most_jobs) × (label_lengths count (jobs_in jobs) ≡ length labels.now) }
    ensures { result ≡ wrong_labels count (jobs_in jobs) labels.now }
{
    let mut at: usize = 0;
    for i in 0..count {
        let to = at + label_length(jobs[i]);
        if wrong_label(&labels[at..to]) {
            return true;
        }
        at = to;
    }
    false
}
