// The lines that are printed: what was tried, and the number that the call gave.
use std::io;

pub fn print_case(rt: &impl Print, name: &str, refusal: u32) -> io::Result<()> {
    println!(rt; "{name}: {refusal}")
}

pub fn print_number(rt: &impl Print, name: &str, x: u16, refusal: u32) -> io::Result<()> {
    println!(rt; "{name} {x}: {refusal}")
}
