// Rows of a table, one behind another on the slate: the row with one job more is made of the row before it.
ghost use Rattle.std.specs.Prelude.{◌≡◌, ℕ, ◌+◌, ◌-◌, ◌<◌, ◌≤◌, max, length};
ghost use Rattle.weights.specs.Weights.{Put};
ghost use Rattle.lanes.specs.Lanes.{most_reach};
ghost use Rattle.fitting.specs.Fitting.{cells, slate_size, top_value, row_at, row_with};

use super::Slate;

// The first n cells, all 0.
pub fn clear_cells(slate: &mut Slate, n: usize)
    requires { (n ≤ cells) × (length slate.old ≡ slate_size) }
    ensures { Put (λ x. 0 + x) slate.old slate.new n (λ x. 0) }
{
    for i in 0..n {
        slate[i] = 0;
    }
}

// From place `at` on n cells: those from place `from` on, none below `least`.
fn lift_cells(slate: &mut Slate, from: usize, at: usize, n: usize, least: u16)
    requires { ((from + n ≤ at) × (at + n ≤ cells)) × (length slate.old ≡ slate_size) }
    ensures { Put (λ x. at + x) slate.old slate.new n (λ x. max (row_at slate.old from x) least) }
{
    for i in 0..n {
        slate[at + i] = slate[from + i].max(least);
    }
}

// From place `at` on n cells: those from place `upper` on, none below v more than the one as far behind place `lower`.
fn raise_cells(slate: &mut Slate, lower: usize, upper: usize, at: usize, n: usize, v: u16)
    requires { (((upper + n ≤ at) × (lower ≤ upper)) × (at + n ≤ cells))
        × ((length slate.old ≡ slate_size) × ((v ≤ top_value) × ((x : ℕ) → x < n → row_at slate.old lower x ≤ most_reach))) }
    ensures { Put (λ x. at + x) slate.old slate.new n
        (λ x. max (row_at slate.old upper x) (v + row_at slate.old lower x)) }
{
    for i in 0..n {
        slate[at + i] = slate[upper + i].max(v + slate[lower + i]);
    }
}

// The row with one job more, as `add_row` makes it, where the job fits.
fn raise_row(slate: &mut Slate, from: usize, cols: usize, d: usize, h: usize, v: u16)
    requires { (((d ≤ h) × (h < cols)) × (from + cols + cols ≤ cells))
        × ((length slate.old ≡ slate_size) × ((v ≤ top_value) × ((x : ℕ) → x < cols → row_at slate.old from x ≤ most_reach))) }
    ensures { Put (λ x. from + cols + x) slate.old slate.new cols (row_with (row_at slate.old from) d h v) }
{
    let at = from + cols;
    let top = v + slate[from + (h - d)];
    lift_cells(slate, from, at, d, 0);
    raise_cells(slate, from, from + d, at + d, h + 1 - d, v);
    lift_cells(slate, from + h + 1, at + h + 1, cols - h - 1, top);
}

// Behind the row at place `from`, which has so many columns, the row with one job more, of value v, that lasts d steps and has h steps from
// its release on.
pub fn add_row(slate: &mut Slate, from: usize, cols: usize, d: usize, h: usize, v: u16)
    requires { ((h < cols) × (from + cols + cols ≤ cells))
        × ((length slate.old ≡ slate_size) × ((v ≤ top_value) × ((x : ℕ) → x < cols → row_at slate.old from x ≤ most_reach))) }
    ensures { Put (λ x. from + cols + x) slate.old slate.new cols (row_with (row_at slate.old from) d h v) }
{
    if h < d {
        lift_cells(slate, from, from + cols, cols, 0);
    } else {
        raise_row(slate, from, cols, d, h, v);
    }
}
