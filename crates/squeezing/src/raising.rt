ghost use Rattle.std.specs.Prelude.{◌≡◌, ℕ, ◌+◌, ◌-◌, ◌<◌, ◌≤◌, List, length, drop, Some, slice_index};
ghost use Rattle.sets.specs.Spaces.{raise as raises};
ghost use Rattle.squeezing.specs.declared.table.Totals.{Totals};
ghost use Rattle.squeezing.specs.Standing.{Front as FrontIs, HoldsIn, Lower, Suffixes, StandsIn, entries_in};

use crate::fixed::Fixed;
use measure::Measure;

// Writes the total of the upper places from each index on.
// Kept: a loop over indices, since each total is made from the one beside it.
pub(crate) fn upper_totals<M: Measure>(hi: &Fixed<M>, room: &mut [M])
    requires room { length hi.now.places.now < length room.old }
    ensures { Suffixes M.algebra M.Measure.row M.span hi.now.totals.now hi.now.places.now room.new }
{
    room[hi.places.len()] = M::nothing();
    for j in (0..hi.places.len()).rev() {
        room[j] = hi.total(j).plus(room[j + 1]);
    }
}

// The upper places that hold a position from above: those before the index `start`, and their total.
#[derive(Clone, Copy)]
pub struct Front<M> {
    pub start: usize,
    pub before: M,
}

impl<M: Measure> Front<M> {
    // What holds the first position from above: no place.
    pub(crate) fn none() -> Front<M>
        ensures { (t : Totals M) (hi : List ℕ) (v : ℕ) → FrontIs M.algebra M.Measure.row M.span t hi 0 v result.start result.before }
    {
        Front {
            start: 0,
            before: M::nothing(),
        }
    }

    // Goes on to the upper places that hold the position at index `i` from `v` on.
    fn advance(&mut self, hi: &Fixed<M>, i: usize, v: u16)
        requires within { i < length hi.now.places.now }
        requires so_far { FrontIs M.algebra M.Measure.row M.span hi.now.totals.now hi.now.places.now i v self.old.start self.old.before }
        ensures on { FrontIs M.algebra M.Measure.row M.span hi.now.totals.now hi.now.places.now i v self.new.start self.new.before }
        ensures free { self.new.start < i → v < slice_index hi.now.places.now self.new.start + (i - self.new.start) }
    {
        // Kept: a `while` over a field, since the next position goes on from where this one leaves off.
        while self.start < i && hi.places[self.start] as usize + (i - self.start) <= v as usize {
            self.before = self.before.plus(hi.total(self.start));
            self.start += 1;
        }
    }
}

// Raising the position at index `i`: the least place, up to its upper one, with which `low` is not above the highest total.
// That total has three parts: the upper places that hold the position, a free stretch of neighbours that ends in the place
// that is tried, and the upper places past `i`. `front`, the first part, goes on from the position before; `after` is the
// total of the last.
pub(crate) fn raise<M: Measure>(
    hi: &Fixed<M>,
    lo: &[u16],
    i: usize,
    front: &mut Front<M>,
    after: M,
    low: M,
) -> Option<u16>
    requires lower { Lower hi.now.totals.now.n lo.now }
    requires within { i < length hi.now.places.now }
    requires same { length lo.now ≡ length hi.now.places.now }
    requires so_far { FrontIs M.algebra M.Measure.row M.span hi.now.totals.now hi.now.places.now i (slice_index lo.now (i - 1) + 1) front.old.start front.old.before }
    requires rest { StandsIn M.algebra M.Measure.row M.span hi.now.totals.now (drop (i + 1) hi.now.places.now) after }
    ensures found { (v : ℕ) → result ≡ Some v → (slice_index lo.now i ≤ v) × (0 < i → slice_index lo.now (i - 1) < v) × (v ≤ slice_index hi.now.places.now i) }
    ensures place { HoldsIn M.algebra M.Measure.row M.span hi.now.totals.now → result ≡ raises M.algebra (entries_in M.Measure.row hi.now.totals.now) (M.Measure.row low) lo.now hi.now.places.now (i + 1) }
    ensures on { (v : ℕ) → result ≡ Some v → FrontIs M.algebra M.Measure.row M.span hi.now.totals.now hi.now.places.now i v front.new.start front.new.before }
{
    let least = lo[..i].last().map_or(lo[i], |last| lo[i].max(*last + 1));
    'places: for v in least..=hi.places[i] {
        front.advance(hi, i, v);
        let k = i - front.start;
        let run = hi.totals.neighbours(v as usize - k, k + 1);
        let sum = front.before.plus(run).plus(after);
        if low.not_above(sum) {
            return Some(v);
        }
    }
    None
}
