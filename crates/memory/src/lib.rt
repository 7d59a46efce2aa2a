// Remembered part-plans in lent working memory of any length. A group of entries has their unplaced sets, side by side so that a
// look at all is short, and behind them the figures of each, the last start and the ends by job. Which entry is written, or
// forgotten, changes no answer.
#![tactic(auto)]

ghost use Rattle.std.specs.Prelude.{◌≡◌, true, ◌+◌, ◌-◌, ◌*◌, ◌<◌, ◌≤◌, length, replicate};
ghost use Rattle.figures.specs.Figures.{most_jobs};
ghost use Rattle.memory.specs.Entries.{ways, figure_bytes, group_bytes, group_of, FiguresOf, Stored, Hit, Adds};

use entries::{ENDS, FIGURES, GROUP, SET, SETS, WAYS};
use tables::Part;
use words::Number;

// 1 for the same set, else 0.
fn same(set: u32, unplaced: u32) -> u32
    ensures { result ≤ 1 }
{
    if set == unplaced { 1 } else { 0 }
}

// The entries of a group with this set, a bit for each: where `entries::entry_ahead` looks closer.
fn ways_with(group: &[u8], unplaced: u32) -> u32
    requires { length group.now ≡ group_bytes }
    ensures { result < 65536 }
{
    let mut ways: u32 = 0;
    for n in 0..WAYS {
        ways = ways * 2 + same(u32::read(group, (WAYS - 1 - n) * SET), unplaced);
    }
    ways
}

// Writes the figures of an entry.
fn write_figures(figures: &mut [u8], part: &Part, jobs: usize)
    requires { (length figures.old ≡ figure_bytes) × (jobs ≤ most_jobs) }
    ensures { FiguresOf figures.new jobs part.now.ends part.now.last }
{
    u16::write(figures, 0, part.last);
    for i in 0..jobs {
        u16::write(figures, ENDS + 2 * i, part.ends[i]);
    }
}

// Writes an entry of a group.
fn store(group: &mut [u8], way: usize, part: &Part, jobs: usize)
    requires { (length group.old ≡ group_bytes) × (way < ways) × (jobs ≤ most_jobs) }
    ensures { Stored group.old group.new jobs part.now.ends
        part.now.unplaced part.now.last }
{
    let unplaced = part.unplaced;
    let from = way * SET;
    let to = from + SET;
    u32::write(&mut group[from..to], 0, unplaced);
    let at = SETS + way * FIGURES;
    let end = at + FIGURES;
    write_figures(&mut group[at..end], part, jobs);
}

// Where a memory of len bytes has the entries of a set.
fn group_at(len: usize, unplaced: u32) -> usize
    requires { group_bytes ≤ len }
    ensures { (result ≡ group_of len unplaced * group_bytes) × (result + group_bytes ≤ len) }
{
    (unplaced as usize) % (len / GROUP) * GROUP
}

// One figure more in a hash below 65,536.
fn mixed(h: usize, x: u16) -> usize
    requires { h < 65536 }
    ensures { result < 65536 }
{
    (h * 31 + (x as usize)) % 65536
}

// Which entry of a group is written: one that the figures choose, so that part-plans of one set keep apart.
fn way_of(part: &Part, jobs: usize) -> usize
    requires { jobs ≤ most_jobs }
    ensures { result < ways }
{
    let mut h: usize = part.last as usize;
    for i in 0..jobs {
        h = mixed(h, part.ends[i]);
    }
    h / 8 % WAYS
}

// The last minute from which a rest is over by minute l, or 0.
fn rested_by(l: u16, rest: u16) -> u16
    ensures { result ≡ l - rest }
{
    if l < rest {
        return 0;
    }
    l - rest
}

// Whether a remembered part-plan with the same unplaced jobs is ahead, from minute l on, of this one, where modules rest so long.
pub fn recall(memory: &[u8], part: &Part, jobs: usize, l: u16, rest: u16) -> bool
    requires { jobs ≤ most_jobs }
    ensures { result ≡ true
        → Hit memory.now jobs part.now.ends part.now.unplaced l rest }
{
    let len = memory.len();
    if len < GROUP {
        return false;
    }
    let unplaced = part.unplaced;
    let from = group_at(len, unplaced);
    let to = from + GROUP;
    let rested = rested_by(l, rest);
    let mut ways = ways_with(&memory[from..to], unplaced);
    while ways > 0 {
        let way = u32::trailing_zeros(ways) as usize;
        if entries::entry_ahead(&memory[from..to], way, part, jobs, unplaced, l, rested) {
            return true;
        }
        ways = ways & (ways - 1);
    }
    false
}

// Remembers a part-plan.
pub fn remember(memory: &mut [u8], part: &Part, jobs: usize)
    requires { jobs ≤ most_jobs }
    ensures { Adds memory.old memory.new jobs part.now.ends
        part.now.unplaced part.now.last }
{
    let len = memory.len();
    if len < GROUP {
        return;
    }
    let from = group_at(len, part.unplaced);
    let way = way_of(part, jobs);
    let to = from + GROUP;
    store(&mut memory[from..to], way, part, jobs);
}

// Sets every byte to 0.
pub fn clear(memory: &mut [u8])
    ensures { memory.new ≡ replicate (length memory.old) 0 }
{
    memory.fill(0);
}
