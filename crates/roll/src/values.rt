// Entries in the order of a measure: comparing them, and adding them up.
ghost use Rattle.std.specs.Prelude.{◌≡◌};
ghost use Rattle.roll.specs.Order.{before, matched, comparable, place as place_for};
ghost use Rattle.roll.specs.Books.{kind};
ghost use Rattle.roll.specs.Totals.{Few, Totals};

use crate::entry::Entry;
use measure::Measure;

// Whether a stands before b: its value is not above b's, and of two equal values it has the smaller number.
fn stands_before<M: Measure>(a: Entry<M>, b: Entry<M>) -> bool
    ensures { result ≡ before (kind M.algebra M.Measure.row M.span) a b }
{
    a.value.not_above(b.value) && (!b.value.not_above(a.value) || a.number < b.number)
}

// Whether one of the two values is not above the other.
fn either_way<M: Measure>(a: Entry<M>, b: Entry<M>) -> bool
    ensures { result ≡ matched (kind M.algebra M.Measure.row M.span) a b }
{
    a.value.not_above(b.value) || b.value.not_above(a.value)
}

// How many stand in front of the first that does not stand before the entry.
pub(crate) fn place_of<M: Measure>(entries: &[Entry<M>], one: Entry<M>) -> usize
    ensures { result ≡ place_for (before (kind M.algebra M.Measure.row M.span)) one entries.now }
{
    entries
        .iter()
        .take_while(|e| stands_before(**e, one))
        .count()
}

// Whether the entry can be compared with each that stands.
pub(crate) fn compares<M: Measure>(entries: &[Entry<M>], one: Entry<M>) -> bool
    ensures { result ≡ comparable (kind M.algebra M.Measure.row M.span) one entries.now }
{
    entries.iter().all(|e| either_way(one, *e))
}

// What the entries come to.
// Kept: a loop that folds `plus`, by a rule of the project.
pub(crate) fn sum<M: Measure>(entries: &[Entry<M>]) -> M
    ensures { Few M.span entries.now → Totals M.algebra M.Measure.row M.span entries.now result }
{
    let mut sum = M::nothing();
    for one in entries {
        sum = sum.plus(one.value);
    }
    sum
}
