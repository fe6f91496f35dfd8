// The table of a search: the totals of neighbouring entries, column by column, then the two ends of the sought band.
ghost use Rattle.std.specs.Prelude.{◌≡◌, ◌+◌, ◌-◌, ◌<◌, ◌≤◌, length, take, drop, Ok, slice_set};
ghost use Rattle.roll.specs.Totals.{Few, rows_of};
ghost use Rattle.squeezing.specs.Table.{Holds, offset};
ghost use Rattle.question.specs.Asking.{asking};
ghost use Rattle.question.specs.Filling.{values, Laid, Written, EndsAsAsked};

use crate::asking::{Question, Side};
use measure::{Band, Measure};
use roll::entry::Entry;

// Writes the first column: the values of the entries.
// Kept: writes by index, since after a loop over `iter_mut` in a chain a proof knows no element.
fn first_column<M: Measure>(entries: &[Entry<M>], table: &mut [M])
    requires { length entries.now ≤ length table.old }
    ensures first { take (length entries.now) table.new ≡ values entries.now }
    ensures kept { drop (length entries.now) table.new ≡ drop (length entries.now) table.old }
{
    for (p, one) in entries.iter().enumerate() {
        table[p] = one.value;
    }
}

// From the column of k neighbours, which starts at `start`, writes that of k + 1 neighbours right behind it, and tells where
// that one starts.
// Kept: writes by index, since after a loop over `iter_mut` in a chain a proof knows no element.
fn next_column<M: Measure>(entries: &[Entry<M>], k: usize, start: usize, table: &mut [M]) -> usize
    requires some { 1 ≤ k }
    requires most { k < length entries.now }
    requires here { start ≡ offset (length entries.now) (k - 1) }
    requires room { start + (length entries.now - k + 1) + (length entries.now - k) ≤ length table.old }
    ensures next { result ≡ offset (length entries.now) k }
    ensures front { take result table.new ≡ take result table.old }
    ensures laid { Few M.span entries.now → Laid M.algebra M.Measure.row M.span (rows_of M.Measure.row entries.now) (length entries.now) table.old result → Laid M.algebra M.Measure.row M.span (rows_of M.Measure.row entries.now) (length entries.now) table.new (offset (length entries.now) (k + 1)) }
    ensures kept { drop (offset (length entries.now) (k + 1)) table.new ≡ drop (offset (length entries.now) (k + 1)) table.old }
{
    let n = entries.len();
    let next = start + (n - k + 1);
    for (q, one) in entries[k..].iter().enumerate() {
        table[next + q] = table[start + q].plus(one.value);
    }
    next
}

// Writes the first m columns, one after the other, and tells where they end.
// Kept: a loop, since a fold over the columns would need a contract for its closure.
fn fill<M: Measure>(entries: &[Entry<M>], m: usize, table: &mut [M]) -> usize
    requires some { 1 ≤ m }
    requires most { m ≤ length entries.now }
    requires room { offset (length entries.now) m ≤ length table.old }
    ensures past { result ≡ offset (length entries.now) m }
    ensures first { take (length entries.now) table.new ≡ values entries.now }
    ensures held { Few M.span entries.now → Holds M.algebra M.Measure.row M.span (length entries.now) m table.new }
    ensures kept { drop result table.new ≡ drop result table.old }
{
    first_column(entries, table);
    let mut start = 0;
    for k in 1..m {
        start = next_column(entries, k, start, table);
    }
    start + (entries.len() - m + 1)
}

// Writes the two ends from a place on.
fn put_ends<M: Copy>(table: &mut [M], at: usize, band: Band<M>)
    requires { at + 2 ≤ length table.old }
    ensures { table.new ≡ slice_set (slice_set table.old at band.low) (at + 1) band.high }
{
    table[at] = band.low;
    table[at + 1] = band.high;
}

// Writes the table of an accepted question, where all entries come to `all`: the columns, then the two ends of the sought
// band.
pub(crate) fn write_table<M: Measure>(
    entries: &[Entry<M>],
    all: M,
    asked: Question<M>,
    table: &mut [M],
)
    requires { asking M.algebra M.Measure.row M.span (length entries.now) asked (length table.old) ≡ Ok tt }
    ensures written { Written M.algebra M.Measure.row M.span entries.now all asked table.old table.new }
    ensures paid { asked.side ≡ Side.Paid → EndsAsAsked M.Measure.row (length entries.now) asked table.new }
{
    let m = asked.searched_size(entries.len());
    let at = fill(entries, m, table);
    put_ends(table, at, asked.searched_band(all));
}
