ghost use Rattle.std.specs.Prelude.{◌≡◌, ◌+◌, ◌-◌, ◌*◌, ◌/◌, ◌<◌, ◌≤◌, length, slice_index_or, MatchOption};
ghost use Rattle.std.specs.List.{range_with_len};
ghost use Rattle.squeezing.specs.Table.{Stands, offset, fits as fits_in};

use measure::Measure;

// How many totals of the table stand before the column of `k + 1` neighbours.
pub(crate) fn column_start(n: usize, k: usize) -> usize
    requires { (n ≤ 120) × (k ≤ n) }
    ensures { result ≡ offset n k }
{
    k * (2 * n + 1 - k) / 2
}

// The total at an index of a column, or of the totals of one pass.
pub(crate) fn total_at<M: Copy>(totals: &[M], i: usize) -> M
    requires { i < length totals.now }
    ensures { result ≡ slice_index_or totals.now i result }
{
    totals[i]
}

// A table of the totals of neighbours among `n` entries, long enough for sets of `m` of them.
#[derive(Drop)]
pub(crate) struct Totals<'t, M> {
    pub(crate) values: &'t [M],
    pub(crate) n: usize,
    pub(crate) m: usize,
    ghost few: { n ≤ 120 },
    ghost within: { m ≤ n },
    ghost long: { offset n m ≤ length values.now },
}

impl<'t, M: Measure> Totals<'t, M> {
    // The totals of a table for sets of `m` of `n` entries, if it is long enough for them.
    pub(crate) fn over(values: &'t [M], n: usize, m: usize) -> Option<Totals<'t, M>>
        requires few { n ≤ 120 }
        requires within { m ≤ n }
        ensures { MatchOption result (length values.now < offset n m) (λ t. (t.values.now ≡ values.now) × (t.n ≡ n) × (t.m ≡ m)) }
    {
        if values.len() < column_start(n, m) {
            return None;
        }
        Some(Totals { values, n, m })
    }

    // The total of `k` neighbours, the first at place `first`: looked up within the column of `k` neighbours alone.
    pub(crate) fn neighbours(&self, first: usize, k: usize) -> M
        requires some { (1 ≤ first) × (1 ≤ k) }
        requires columns { k ≤ self.now.m }
        requires within { first + k ≤ self.now.n + 1 }
        ensures { Stands M.algebra M.Measure.row M.span self.now.n self.now.m self.now.values.now (range_with_len first k) result }
    {
        total_at(&self.values[column_start(self.n, k - 1)..], first - 1)
    }
}

// Whether sets of `m` of `n` entries can be looked for over a table of so many values.
pub fn fits(n: usize, m: usize, cells: usize) -> bool
    ensures { result ≡ fits_in n m cells }
{
    m > 0 && m <= n && n <= 120 && column_start(n, m) <= cells
}
