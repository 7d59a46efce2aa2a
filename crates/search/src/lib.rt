// The search for the tie rule's order. One search decides whether some order that goes on from a part-plan ends by a target: it lowers the
// end until no order ends earlier, and then it settles the places of the order one after another.
#![tactic(auto)]

ghost use Rattle.std.specs.Prelude.{◌≡◌, true, ◌↔◌, [], ◌∷◌, ◌++◌, suc, ◌+◌, ◌<◌, length, get_or, replicate};
ghost use Rattle.figures.specs.Figures.{no_minute};
ghost use Rattle.schedule.specs.Plan.{Circular};
ghost use Rattle.schedule.specs.ListPlan.{ready};
ghost use Rattle.schedule.specs.Ends.{EarliestEnd, EndsBy};
ghost use Rattle.tables.specs.Tables.{sheet_of, count_of, Fit};
ghost use Rattle.tables.specs.Part.{word_of};
ghost use Rattle.candidates.specs.Candidates.{Known, theory_part, JobStarts};
ghost use Rattle.listing.specs.Listing.{OrderOf};
ghost use Rattle.preparing.specs.Preparing.{Tabled};
ghost use Rattle.fitting.specs.Fitting.{slate_size};
ghost use Rattle.search.specs.Search.{Unlimited, Outcome, Fails, none_found, SettledSo, Going, Searching, Choosing, Remembered};
ghost use Rattle.search.specs.Search.{no_limit, kept_as, Lowering, Lowered, Lowest, LowestIf, Placing, TieRuled, NoneBefore, WithinLimit};

use bits::Set;
use figures::{MOST_JOBS, NO_MINUTE};
use fitting::{SLATE_PLACES, Slate};
use listing::Found;
use tables::{Jobs, Part, Prepared, UNPREPARED};

// ---- the limit

// How many part-plans may be visited where there is no limit.
pub const NO_LIMIT: u64 = 18446744073709551615;

// Counts a part-plan, and whether none is left: the search then gives up, and what it answers says nothing. Without a limit it never does.
fn used_up(left: &mut u64) -> bool
    ensures spent { result ≡ true → left.new ≡ 0 }
    ensures limit { Unlimited left.old left.new }
{
    let now = *left;
    if now == NO_LIMIT {
        return false;
    }
    if now == 0 {
        return true;
    }
    *left = now - 1;
    now == 1
}

// ---- does some order end by the target?

// No order.
fn none_found() -> Found
    ensures { result ≡ none_found }
{
    Found {
        hit: false,
        end: NO_MINUTE,
        order: [0u8; MOST_JOBS],
    }
}

// Whether a bound or a remembered part-plan shows that no order which goes on from this part-plan ends by the target.
fn cut_off(
    slate: &mut Slate,
    memory: &[u8],
    part: &Part,
    at: &[u16; MOST_JOBS],
    least: u16,
    target: u16,
    jobs: &Jobs,
    prepared: &Prepared,
) -> bool
    requires { ((Going jobs.now prepared.now part.now target memory.now) × (length slate.old ≡ slate_size))
        × ((JobStarts jobs.now part.now at.now least) × (part.now.placed < count_of jobs.now)) }
    ensures fails { result ≡ true → Fails (sheet_of jobs.now) target (word_of part.now) }
    ensures size { length slate.new ≡ length slate.old }
{
    if bounds::hopeless(jobs, prepared, part, at, least, target) {
        return true;
    }
    if memory::recall(memory, part, jobs.count(), least, jobs.changeover()) {
        return true;
    }
    bounds::overfilled(slate, jobs, part, at, least, target)
}

// P-15: the search goes from a part-plan to each next job. Finds an order that goes on from this part-plan and ends by the
// target, or that there is none, unless the part-plans that are left are used up before. `settled` has for each placed job the jobs that were tried before it was chosen: in its place none of
// them leads to such an order. `same` has those of the jobs that start at the last start.
#[cycle(try_children_visit)]
fn visit(
    memory: &mut [u8],
    settled: &mut [u32; MOST_JOBS],
    slate: &mut Slate,
    left: &mut u64,
    part: &Part,
    same: u32,
    target: u16,
    jobs: &Jobs,
    prepared: &Prepared,
) -> Found
    requires { Searching jobs.now prepared.now part.now target memory.old settled.old slate.old same }
    ensures outcome { Outcome (sheet_of jobs.now) target (word_of part.now) result left.new }
    ensures settled { SettledSo (sheet_of jobs.now) target (word_of part.now) settled.new same }
    ensures remembered { Remembered (sheet_of jobs.now) memory.new (suc target) }
    ensures size { length slate.new ≡ length slate.old }
    ensures limit { Unlimited left.old left.new }
{
    if used_up(left) {
        return none_found();
    }
    let count = jobs.count();
    let unplaced = part.unplaced;
    if u32::count_ones(unplaced) == 0 {
        return listing::finished(part, count, target);
    }
    let starts = candidates::starts_of(jobs, part);
    let at = starts.at;
    if cut_off(
        slate,
        memory,
        part,
        &at,
        starts.least,
        target,
        jobs,
        prepared,
    ) {
        return none_found();
    }
    let mut untried = branching::to_try(jobs, prepared, &at, starts.least, unplaced);
    let mut tried: u32 = 0;
    let mut c = candidates::next_choice(prepared, &at, untried, count);
    while c.start != NO_MINUTE {
        let found = try_children(
            memory,
            settled,
            slate,
            left,
            part,
            same,
            target,
            jobs,
            prepared,
            Trial {
                tried,
                job: c.job,
                start: c.start,
            },
        );
        if found.hit || *left == 0 {
            return found;
        }
        untried = untried.without(c.job);
        tried = tried.with(c.job);
        c = candidates::next_choice(prepared, &at, untried, count);
    }
    memory::remember(memory, part, count);
    none_found()
}

// A job that is tried at its start, and the jobs that were tried before it.
#[derive(Drop)]
struct Trial {
    tried: u32,
    job: usize,
    start: u16,
}

// "and from that job to the longer part-plan": the same for the orders that go on with this job, unless another stands for it.
#[cycle(try_children_visit)]
fn try_children(
    memory: &mut [u8],
    settled: &mut [u32; MOST_JOBS],
    slate: &mut Slate,
    left: &mut u64,
    part: &Part,
    same: u32,
    target: u16,
    jobs: &Jobs,
    prepared: &Prepared,
    trial: Trial,
) -> Found
    requires { (Searching jobs.now prepared.now part.now target memory.old settled.old slate.old same)
        × (Choosing jobs.now part.now target trial.tried trial.job trial.start) }
    ensures outcome { Outcome (sheet_of jobs.now) target (word_of part.now ++ (trial.job ∷ [])) result left.new }
    ensures settled { SettledSo (sheet_of jobs.now) target (word_of part.now) settled.new same }
    ensures remembered { Remembered (sheet_of jobs.now) memory.new (suc target) }
    ensures size { length slate.new ≡ length slate.old }
    ensures limit { Unlimited left.old left.new }
{
    let tried = trial.tried;
    let job = trial.job;
    let start = trial.start;
    if branching::passed_over(jobs, prepared, part, settled, same, tried, start, job) {
        return none_found();
    }
    settled[job] = tried;
    let mut child = *part;
    placement::place(&mut child, jobs, job, start);
    let same_now = branching::settled_now(same, tried, start, part.last);
    visit(
        memory, settled, slate, left, &child, same_now, target, jobs, prepared,
    )
}

// The same from a part-plan for which nothing is settled, unless jobs arrive too late for the target.
fn seek(
    memory: &mut [u8],
    left: &mut u64,
    part: &Part,
    target: u16,
    jobs: &Jobs,
    prepared: &Prepared,
) -> Found
    requires { Going jobs.now prepared.now part.now target memory.old }
    ensures outcome { Outcome (sheet_of jobs.now) target (word_of part.now) result left.new }
    ensures remembered { Remembered (sheet_of jobs.now) memory.new (suc target) }
    ensures limit { Unlimited left.old left.new }
{
    if areas::too_late(jobs, prepared, part, target) {
        return none_found();
    }
    let mut settled = [0u32; MOST_JOBS];
    let mut slate = [0u16; SLATE_PLACES];
    fitting::begin(&mut slate, jobs);
    visit(
        memory,
        &mut settled,
        &mut slate,
        left,
        part,
        0,
        target,
        jobs,
        prepared,
    )
}

// ---- the earliest end

// The same order, where none ends earlier.
fn kept(best: Found) -> Found
    ensures { result ≡ kept_as best }
{
    let order = best.order;
    Found {
        hit: false,
        end: best.end,
        order,
    }
}

// An order that ends by the target, or none. No order ends between the target and the goal that it is rounded to.
fn decide(memory: &mut [u8], left: &mut u64, target: u16, jobs: &Jobs, prepared: &Prepared) -> Found
    requires { (Fit jobs.now) × ((Tabled jobs.now prepared.now) × ((target < no_minute) × (Remembered (sheet_of jobs.now) memory.old (suc target)))) }
    ensures outcome { Outcome (sheet_of jobs.now) target [] result left.new }
    ensures remembered { Remembered (sheet_of jobs.now) memory.new (suc target) }
    ensures limit { Unlimited left.old left.new }
{
    let goal = sums::rounded(jobs, target);
    let part = placement::first_part(jobs);
    seek(memory, left, &part, goal, jobs, prepared)
}

// An order that ends earlier, or the same one where there is none.
fn lower(memory: &mut [u8], left: &mut u64, best: Found, jobs: &Jobs, prepared: &Prepared) -> Found
    requires { Lowering jobs.now prepared.now best memory.old }
    ensures lowered { Lowered (sheet_of jobs.now) best result left.new }
    ensures remembered { Remembered (sheet_of jobs.now) memory.new result.end }
    ensures limit { Unlimited left.old left.new }
{
    if best.end == 0 {
        return kept(best);
    }
    let found = decide(memory, left, best.end - 1, jobs, prepared);
    if found.hit {
        return found;
    }
    kept(best)
}

// An order that ends first of all, or one that the part-plans that are left were used up to find.
fn lowest(
    memory: &mut [u8],
    left: &mut u64,
    listed: Found,
    jobs: &Jobs,
    prepared: &Prepared,
) -> Found
    requires { Lowering jobs.now prepared.now listed memory.old }
    ensures lowest { LowestIf (sheet_of jobs.now) result left.new }
    ensures remembered { Remembered (sheet_of jobs.now) memory.new result.end }
    ensures limit { Unlimited left.old left.new }
{
    let mut best = lower(memory, left, listed, jobs, prepared);
    while best.hit {
        best = lower(memory, left, best, jobs, prepared);
    }
    best
}

// ---- the tie rule's order

// An order that goes on from this part-plan with job j and ends by the target, or none.
fn try_place(
    memory: &mut [u8],
    left: &mut u64,
    part: &Part,
    j: usize,
    target: u16,
    jobs: &Jobs,
    prepared: &Prepared,
) -> Found
    requires { (Going jobs.now prepared.now part.now target memory.old) × (j < count_of jobs.now) }
    ensures outcome { Outcome (sheet_of jobs.now) target (word_of part.now ++ (j ∷ [])) result left.new }
    ensures remembered { Remembered (sheet_of jobs.now) memory.new (suc target) }
    ensures limit { Unlimited left.old left.new }
{
    let start = candidates::start_or_none(jobs, part, j);
    if start == NO_MINUTE {
        return none_found();
    }
    let mut child = *part;
    placement::place(&mut child, jobs, j, start);
    seek(memory, left, &child, target, jobs, prepared)
}

// An order that ends first, and at the next place has the least job that an order which ends first can have there, unless the search gave
// up.
fn settle_place(
    memory: &mut [u8],
    left: &mut u64,
    part: &Part,
    best: Found,
    jobs: &Jobs,
    prepared: &Prepared,
) -> Found
    requires { (Going jobs.now prepared.now part.now best.end memory.old)
        × ((Placing (sheet_of jobs.now) (word_of part.now) best) × (part.now.placed < count_of jobs.now)) }
    ensures lowest { Lowest (sheet_of jobs.now) result }
    ensures placed { ¬ (left.new ≡ 0) → Placing (sheet_of jobs.now)
        (word_of part.now ++ (get_or result.order part.now.placed 0 ∷ [])) result }
    ensures remembered { Remembered (sheet_of jobs.now) memory.new (suc result.end) }
    ensures limit { Unlimited left.old left.new }
{
    let k = part.placed;
    let stop = usize::from(best.order[k]);
    for j in 0..stop {
        let found = try_place(memory, left, part, j, best.end, jobs, prepared);
        if found.hit {
            return found;
        }
        if *left == 0 {
            return best;
        }
    }
    best
}

// Places the next job of the order.
fn go_on(part: &mut Part, j: usize, jobs: &Jobs)
    requires { (Known jobs.now part.old) × (ready (sheet_of jobs.now) (theory_part jobs.now part.old).placed j ≡ true) }
    ensures { (Known jobs.now part.new)
        × ((word_of part.new ≡ word_of part.old ++ (j ∷ []))
        × (part.new.placed ≡ part.old.placed + 1)) }
{
    let start = candidates::start_or_none(jobs, part, j);
    placement::place(part, jobs, j, start);
}

// The tie rule's order, from one that ends first, unless the search gave up.
fn first_order(
    memory: &mut [u8],
    left: &mut u64,
    least: Found,
    jobs: &Jobs,
    prepared: &Prepared,
) -> Found
    requires { (Lowest (sheet_of jobs.now) least)
        × ((Fit jobs.now) × ((Tabled jobs.now prepared.now) × (Remembered (sheet_of jobs.now) memory.old (suc least.end)))) }
    ensures lowest { Lowest (sheet_of jobs.now) result }
    ensures tied { ¬ (left.new ≡ 0) → TieRuled (sheet_of jobs.now) result }
    ensures limit { Unlimited left.old left.new }
{
    let count = jobs.count();
    let mut best = least;
    let mut part = placement::first_part(jobs);
    for k in 0..count {
        best = settle_place(memory, left, &part, best, jobs, prepared);
        if *left == 0 {
            return best;
        }
        go_on(&mut part, usize::from(best.order[k]), jobs);
    }
    best
}

// ---- the questions

// Fills the prepared table, and gives a list plan to begin with.
fn begin(prepared: &mut Prepared, jobs: &Jobs) -> Found
    requires { (Fit jobs.now) × (¬ Circular (sheet_of jobs.now)) }
    ensures listed { OrderOf (sheet_of jobs.now) result }
    ensures tabled { Tabled jobs.now prepared.new }
{
    preparing::prepare(prepared, jobs);
    let listed = listing::first_listed(jobs, prepared);
    preparing::put_lanes(prepared, jobs, listed.end);
    listed
}

// How many part-plans are visited before more list plans are tried, at most, and how many of these.
const FIRST_LIMIT: u64 = 100000;

const MORE_MOVES: u32 = 40000;

// How many of the part-plans that are left are visited first.
fn first_share(left: u64) -> u64 {
    if left < FIRST_LIMIT {
        return left;
    }
    FIRST_LIMIT
}

// An order that ends first of all, unless the search gave up, and the prepared table. Where that takes a while, more list plans are tried
// before the search goes on. What the memory held changes nothing.
fn least_order(memory: &mut [u8], left: &mut u64, prepared: &mut Prepared, jobs: &Jobs) -> Found
    requires { (Fit jobs.now) × (¬ Circular (sheet_of jobs.now)) }
    ensures lowest { LowestIf (sheet_of jobs.now) result left.new }
    ensures tabled { Tabled jobs.now prepared.new }
    ensures limit { Unlimited left.old left.new }
{
    memory::clear(memory);
    let listed = begin(prepared, jobs);
    let mut few = first_share(*left);
    let soon = lowest(memory, &mut few, listed, jobs, prepared);
    if few > 0 {
        return soon;
    }
    let better = listing::improved(jobs, soon, MORE_MOVES, 2);
    lowest(memory, left, better, jobs, prepared)
}

// The earliest end of all valid plans. What the memory held changes nothing, and it is left all zero: so too below.
pub fn earliest(memory: &mut [u8], jobs: &Jobs) -> u16
    requires { (Fit jobs.now) × (¬ Circular (sheet_of jobs.now)) }
    ensures answer { EarliestEnd (sheet_of jobs.now) result }
    ensures cleared { memory.new ≡ replicate (length memory.old) 0 }
{
    let mut prepared = UNPREPARED;
    let mut left = NO_LIMIT;
    let least = least_order(memory, &mut left, &mut prepared, jobs);
    memory::clear(memory);
    least.end
}

// Whether an order ends by the target: this one, or one that the search finds.
fn some_ends_by(
    memory: &mut [u8],
    listed: Found,
    target: u16,
    jobs: &Jobs,
    prepared: &Prepared,
) -> bool
    requires { Lowering jobs.now prepared.now listed memory.old }
    ensures { (result ≡ true) ↔ EndsBy (sheet_of jobs.now) target }
{
    if listed.end <= target {
        return true;
    }
    let mut left = NO_LIMIT;
    let found = decide(memory, &mut left, target, jobs, prepared);
    found.hit
}

// Whether some valid plan ends by the target.
pub fn ends_by(memory: &mut [u8], target: u16, jobs: &Jobs) -> bool
    requires { (Fit jobs.now) × (¬ Circular (sheet_of jobs.now)) }
    ensures answer { (result ≡ true) ↔ EndsBy (sheet_of jobs.now) target }
    ensures cleared { memory.new ≡ replicate (length memory.old) 0 }
{
    memory::clear(memory);
    let mut prepared = UNPREPARED;
    let listed = begin(&mut prepared, jobs);
    let ends = some_ends_by(memory, listed, target, jobs, &prepared);
    memory::clear(memory);
    ends
}

// The tie rule's order and its list plan's end.
pub fn run(memory: &mut [u8], jobs: &Jobs) -> Found
    requires { (Fit jobs.now) × (¬ Circular (sheet_of jobs.now)) }
    ensures answer { TieRuled (sheet_of jobs.now) result }
    ensures cleared { memory.new ≡ replicate (length memory.old) 0 }
{
    let mut prepared = UNPREPARED;
    let mut left = NO_LIMIT;
    let least = least_order(memory, &mut left, &mut prepared, jobs);
    memory::clear(memory);
    let found = first_order(memory, &mut left, least, jobs, &prepared);
    memory::clear(memory);
    found
}

// ---- within a limit

// An order with its end, a minute before which no order ends, and whether it is the tie rule's.
#[derive(Drop)]
pub struct Within {
    pub order: [u8; MOST_JOBS],
    pub end: u16,
    pub bound: u16,
    pub exact: bool,
}

// Whether so few part-plans show that no order ends by the target.
fn refuted(memory: &mut [u8], few: u64, target: u16, jobs: &Jobs, prepared: &Prepared) -> bool
    requires { (Fit jobs.now) × ((Tabled jobs.now prepared.now) × (target < no_minute)) }
    ensures { result ≡ true → NoneBefore (sheet_of jobs.now) (suc target) }
{
    memory::clear(memory);
    let mut left = few;
    let found = decide(memory, &mut left, target, jobs, prepared);
    if found.hit {
        return false;
    }
    0 < left
}

// A minute up to this end before which no order ends: the last that halving finds, with so few part-plans for each question.
fn bound_below(memory: &mut [u8], few: u64, end: u16, jobs: &Jobs, prepared: &Prepared) -> u16
    requires { (Fit jobs.now) × ((Tabled jobs.now prepared.now) × (end < no_minute)) }
    ensures { NoneBefore (sheet_of jobs.now) result }
{
    let mut low: u16 = 0;
    let mut high = end;
    while low < high {
        let middle = low + (high - low) / 2;
        if refuted(memory, few, middle, jobs, prepared) {
            low = middle + 1;
        } else {
            high = middle;
        }
    }
    low
}

// An order that the search gave up to lower, and a bound.
fn bounded(memory: &mut [u8], few: u64, best: Found, jobs: &Jobs, prepared: &Prepared) -> Within
    requires { (Fit jobs.now) × ((Tabled jobs.now prepared.now) × (OrderOf (sheet_of jobs.now) best)) }
    ensures { WithinLimit (sheet_of jobs.now) result }
{
    let bound = bound_below(memory, few, best.end, jobs, prepared);
    let order = best.order;
    Within {
        order,
        end: best.end,
        bound,
        exact: false,
    }
}

// The tie rule's order from one that ends first, or that one where the search gave up.
fn settled(
    memory: &mut [u8],
    left: &mut u64,
    least: Found,
    jobs: &Jobs,
    prepared: &Prepared,
) -> Within
    requires { (Lowest (sheet_of jobs.now) least) × ((Fit jobs.now) × (Tabled jobs.now prepared.now)) }
    ensures answer { WithinLimit (sheet_of jobs.now) result }
    ensures unlimited { left.old ≡ no_limit → result.exact ≡ true }
{
    memory::clear(memory);
    let found = first_order(memory, left, least, jobs, prepared);
    let order = found.order;
    Within {
        order,
        end: found.end,
        bound: found.end,
        exact: 0 < *left,
    }
}

// The share of the limit that each question for the bound has, and the least of it.
const BOUND_SHARE: u64 = 16;

const LEAST_BOUND: u64 = 1000;

// The tie rule's order, or after so many part-plans an order and a minute before which none ends. Without a limit, the tie rule's order.
pub fn run_within(memory: &mut [u8], limit: u64, jobs: &Jobs) -> Within
    requires { (Fit jobs.now) × (¬ Circular (sheet_of jobs.now)) }
    ensures answer { WithinLimit (sheet_of jobs.now) result }
    ensures unlimited { limit ≡ no_limit → result.exact ≡ true }
    ensures cleared { memory.new ≡ replicate (length memory.old) 0 }
{
    let mut prepared = UNPREPARED;
    let mut left = limit;
    let least = least_order(memory, &mut left, &mut prepared, jobs);
    if left == 0 {
        let few = limit / BOUND_SHARE + LEAST_BOUND;
        let given_up = bounded(memory, few, least, jobs, &prepared);
        memory::clear(memory);
        return given_up;
    }
    let answer = settled(memory, &mut left, least, jobs, &prepared);
    memory::clear(memory);
    answer
}
