// Runs the edges of job sheets, of planning, of the least count, of slack, of job sets, of the use of the cabinet, of the desk and of the
// plan runner, and prints a line a case: what was tried, and the number that the call gave.
#![tactic(auto)]

mod desks;
mod lines;
mod plans;
mod runners;
mod sets;
mod sheets;
mod sizes;
mod slacks;
mod uses;

use std::io;

fn main(rt: HostRuntime) -> io::Result<()> {
    sheets::run(&rt)?;
    plans::run(&rt)?;
    sizes::run(&rt)?;
    slacks::run(&rt)?;
    sets::run(&rt)?;
    uses::run(&rt)?;
    desks::run(&rt)?;
    runners::run(&rt)
}
