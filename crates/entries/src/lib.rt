// Entries of a group of working memory: whether a remembered part-plan is ahead of another.
#![tactic(auto)]

ghost use Rattle.std.specs.Prelude.{◌≡◌, true, ◌<◌, ◌≤◌, max, length};
ghost use Rattle.figures.specs.Figures.{most_jobs};
ghost use Rattle.entries.specs.Entry.{ways, group_bytes, entry_in, EntryAhead};

use tables::Part;
use words::Number;

// The entries of a group.
pub const WAYS: usize = 16;

// The bytes of one entry's set, and of all sets of a group, with which it begins.
pub const SET: usize = 4;

pub const SETS: usize = 64;

// The bytes of one entry's figures, and where the ends stand in them, behind the last start.
pub const FIGURES: usize = 42;

pub const ENDS: usize = 2;

// The bytes of a group.
pub const GROUP: usize = 736;

// 1 where a minute is after both of two others, else 0.
fn after_both(x: u16, end: u16, other: u16) -> u16
    ensures { (result ≤ 1) × (result ≡ 0 → x ≤ max end other) }
{
    if x <= end {
        return 0;
    }
    if x <= other {
        return 0;
    }
    1
}

// Whether the part-plan of this entry of a group has this set and is ahead, from minute l on, of this part-plan. The modules of a job that
// has ended by minute `rested` have rested by minute l.
pub fn entry_ahead(
    group: &[u8],
    way: usize,
    part: &Part,
    jobs: usize,
    unplaced: u32,
    l: u16,
    rested: u16,
) -> bool
    requires { (length group.now ≡ group_bytes) × (way < ways) × (jobs ≤ most_jobs) }
    ensures { result ≡ true → EntryAhead (entry_in group.now way) jobs part.now.ends unplaced l rested }
{
    if u32::read(group, way * SET) != unplaced {
        return false;
    }
    let at = SETS + way * FIGURES;
    let mut late = after_both(u16::read(group, at), l, l);
    for i in 0..jobs {
        late += after_both(u16::read(group, at + ENDS + 2 * i), part.ends[i], rested);
    }
    late == 0
}
