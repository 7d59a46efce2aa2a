// The figures of the format, each once; specs/Figures.antt has a definition for each. Those that plans share stand in crate `figures`.
pub const LONGEST_SHEET: usize = 570;

pub const RECORD_SIZE: usize = 12;

pub const TRAILER_SIZE: usize = 10;

pub const LONGEST_LABEL: usize = 16;

pub const FIRST_LABEL_BYTE: usize = 32;

pub const LAST_LABEL_BYTE: usize = 126;

pub const SPACE: u8 = 32;

pub const WIDEST_JOB: usize = 255;

pub const LAST_DEPARTURE: usize = 2880;
