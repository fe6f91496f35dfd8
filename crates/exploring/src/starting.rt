ghost use Rattle.std.specs.Prelude.{◌≡◌, ℕ, ◌≤◌, if◌then◌else◌};
ghost use Rattle.sets.specs.Spaces.{Space};
ghost use Rattle.sets.specs.Trace.{Trace};
ghost use Rattle.squeezing.specs.Table.{fits as fits_in};
ghost use Rattle.exploring.specs.Meaning.{planned, coming, table_of, count_of, size_of, Begun, Same};
ghost use Rattle.exploring.specs.Waiting.{to_come, first_of};

use crate::frontier::Frontier;
use crate::state::Search;
use crate::whole::whole;
use crate::work::Work;
use arrayvec::ArrayVec;
use measure::{Band, Measure};
use squeezing::table::fits;

// The search for sets of `m` of `n` places begins: its first space waits, unless the size is 0.
fn plan(n: usize, m: usize) -> Frontier
    requires { (m ≤ n) × (n ≤ 120) }
    ensures same { (result.root.n ≡ n) × (result.root.m ≡ m) }
    ensures items { (e : ℕ → Space → Trace) → to_come e result ≡ first_of e n m }
{
    Frontier {
        root: whole(n, m),
        fresh: m > 0,
        levels: ArrayVec::new(),
    }
}

// The same, of sets of 0 of 0 places where the sizes do not fit.
fn plan_over(n: usize, m: usize, cells: usize) -> Frontier
    ensures count { result.root.n ≡ (if fits_in n m cells then n else 0) }
    ensures size { result.root.m ≡ (if fits_in n m cells then m else 0) }
    ensures items { (e : ℕ → Space → Trace) → to_come e result ≡ first_of e result.root.n result.root.m }
{
    if fits(n, m, cells) {
        plan(n, m)
    } else {
        plan(0, 0)
    }
}

// The search for sets of `m` of `n` entries whose totals lie in the band, over a table of the totals of neighbours whose
// first column holds the entries. Where the sizes do not fit the search is finished, and of size 0.
pub fn over<'t, M: Measure>(table: &'t [M], n: usize, m: usize, band: Band<M>) -> Search<'t, M>
    ensures { Begun M.algebra M.Measure.row M.span n m table.now band.low band.high result }
{
    Search {
        table,
        work: Work {
            frontier: plan_over(n, m, table.len()),
            band,
            room: [M::nothing(); 121],
        },
    }
}

impl<'t, M: Measure> Search<'t, M> {
    // How many places each set of the search has.
    pub fn places(&self) -> usize
        ensures { result ≡ size_of self.now }
    {
        self.work.frontier.root.m
    }

    // The same search begins again from its first space, over another band.
    pub fn restart(&mut self, band: Band<M>)
        ensures same { Same self.old self.new }
        ensures comes { coming M.algebra M.Measure.row self.new ≡ planned M.algebra M.Measure.row (count_of self.old) (size_of self.old) (table_of self.old) (M.Measure.row band.low) (M.Measure.row band.high) }
    {
        self.work.frontier.restart();
        self.work.band = band;
    }
}
