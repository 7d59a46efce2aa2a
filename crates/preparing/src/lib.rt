// The prepared table: what is made of the jobs once for a search.
#![tactic(auto)]

ghost use Rattle.std.specs.Prelude.{◌≡◌};
ghost use Rattle.tables.specs.Tables.{Fit};
ghost use Rattle.preparing.specs.Preparing.{Begun, Tabled};

use tables::{Jobs, Prepared};

// A list of numbers as wider ones.
fn widened<const N: usize>(list: &[u16; N]) -> [u32; N]
    ensures { result ≡ list.now }
{
    let mut wide = [0u32; N];
    for i in 0..N {
        wide[i] = list[i] as u32;
    }
    wide
}

// All but the tables of the lanes.
pub fn prepare(prepared: &mut Prepared, jobs: &Jobs)
    requires { Fit jobs.now }
    ensures { Begun jobs.now prepared.new }
{
    let chains = relations::chains(jobs);
    let heads = heads::of_all(jobs);
    let relations = relations::relate(jobs);
    let weights = weights::weightings(jobs);
    let tails = widened(&chains.at);
    prepared.tails = tails;
    let heads = widened(&heads.at);
    prepared.heads = heads;
    let related = relations.of;
    prepared.related = related;
    let worth = weights.worth;
    prepared.worth = worth;
    let most = widened(&weights.most);
    prepared.most = most;
}

// The tables of the lanes, for plans that end before `end`.
pub fn put_lanes(prepared: &mut Prepared, jobs: &Jobs, end: u16)
    requires { (Begun jobs.now prepared.old) × (Fit jobs.now) }
    ensures { Tabled jobs.now prepared.new }
{
    let lanes = values::lanes_of(jobs, jobs.closing(end));
    let tables = lanes.of;
    prepared.lanes = tables;
}
