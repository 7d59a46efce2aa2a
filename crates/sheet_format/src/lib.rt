// A job of a sheet, the figures of the format, and the tests of ranges: 2, 3 and 19, and 5 of one record. The other parts of a sheet are in
// `records`, `trailer` and `label_check`, the calls on whole sheets in `sheet`.
#![tactic(auto)]

ghost use Rattle.std.specs.Prelude.{◌≡◌, ◌≤◌};
ghost use Rattle.sheet_format.specs.Format.{label_length};

pub mod checks;
pub mod layout;

// A job, in the widths of its record.
#[repr(C)]
#[derive(Clone, Copy, Default)]
pub struct Job {
    pub label_len: u8,
    pub modules: u8,
    pub minutes: u16,
    pub earlier: u32,
    pub departure: u16,
    pub arrival: u16,
}

// What a sheet says of the cabinet: its modules N, and the minutes that a module rests between two jobs.
#[derive(Clone, Copy)]
pub struct Cabinet {
    pub modules: u16,
    pub changeover: u16,
}

// The length of a job's label; the contract hands its bound to the callers.
pub fn label_length(job: Job) -> usize
    ensures { (result ≡ label_length job) × (result ≤ 255) }
{
    job.label_len as usize
}
