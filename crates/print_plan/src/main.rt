// Reads a job sheet from standard input and prints its plan, or the refusal.
#![tactic(auto)]

use sheet_format::layout::LONGEST_SHEET;
use std::io::{self, Read};

// A byte more than the longest sheet: a longer input is then refused for its length.
const INPUT: usize = LONGEST_SHEET + 1;

// The working memory that the search is lent.
const WORK: usize = 65536;

fn main(rt: HostRuntime) -> io::Result<()> {
    let mut input = [0u8; INPUT];
    let mut reader = rt.reader();
    let mut count = 0;
    while count < INPUT {
        // a read that fails counts as the input's end
        let more = reader.read(&mut input[count..]).unwrap_or(0);
        if more == 0 {
            break;
        }
        count += more;
    }
    let text = report::report(&input[..count], &mut [0u8; WORK]);
    let bytes = text.bytes;
    let length = text.length;
    rt.write_all(&bytes[..length])
}
