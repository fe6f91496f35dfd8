ghost use Rattle.std.specs.Prelude.{◌≡◌, ℕ, ◌+◌, ◌-◌, ◌<◌, ◌≤◌, List, length, take, Some, slice_index};
ghost use Rattle.sets.specs.Spaces.{lower as lowers};
ghost use Rattle.squeezing.specs.declared.table.Totals.{Totals};
ghost use Rattle.squeezing.specs.Standing.{Back as BackIs, Higher, HoldsIn, Prefixes, StandsIn, entries_in};

use crate::fixed::Fixed;
use measure::Measure;

// Writes the total of the lower places before each index.
// Kept: a loop over indices, since each total is made from the one beside it.
pub(crate) fn lower_totals<M: Measure>(lo: &Fixed<M>, room: &mut [M])
    requires room { length lo.now.places.now < length room.old }
    ensures { Prefixes M.algebra M.Measure.row M.span lo.now.totals.now lo.now.places.now room.new }
{
    room[0] = M::nothing();
    for j in 0..lo.places.len() {
        room[j + 1] = room[j].plus(lo.total(j));
    }
}

// The lower places that hold a position from below: those from the index `end` on, and their total.
#[derive(Clone, Copy)]
pub struct Back<M> {
    pub end: usize,
    pub after: M,
}

impl<M: Measure> Back<M> {
    // What holds the last of `end` positions from below: no place.
    pub(crate) fn none(end: usize) -> Back<M>
        ensures { (t : Totals M) (lo : List ℕ) (v : ℕ) → length lo ≡ end → 0 < end → BackIs M.algebra M.Measure.row M.span t lo (end - 1) v result.end result.after }
    {
        Back {
            end,
            after: M::nothing(),
        }
    }

    // Goes on to the lower places that hold the position at index `i` from `v` down.
    fn advance(&mut self, lo: &Fixed<M>, i: usize, v: u16)
        requires so_far { BackIs M.algebra M.Measure.row M.span lo.now.totals.now lo.now.places.now i v self.old.end self.old.after }
        ensures on { BackIs M.algebra M.Measure.row M.span lo.now.totals.now lo.now.places.now i v self.new.end self.new.after }
        ensures free { i + 1 < self.new.end → slice_index lo.now.places.now (self.new.end - 1) < v + (self.new.end - 1 - i) }
    {
        // Kept: a `while` over a field, since the next position goes on from where this one leaves off.
        while self.end > i + 1
            && lo.places[self.end - 1] as usize >= v as usize + (self.end - 1 - i)
        {
            self.end -= 1;
            self.after = lo.total(self.end).plus(self.after);
        }
    }
}

// Lowering the position at index `i`: the greatest place, down to its lower one, with which the lowest total is not above
// `high`. That total has three parts: the lower places before `i`, whose total is `before`, a free stretch of neighbours that
// begins with the place that is tried, and the lower places that hold the position. `back`, the last part, goes on from the
// position after.
// Kept: `lower_totals`, `Back` and `lower` mirror raising and are no twins of it: sums grow at the other end, bounds turn round.
pub(crate) fn lower<M: Measure>(
    lo: &Fixed<M>,
    hi: &[u16],
    i: usize,
    back: &mut Back<M>,
    before: M,
    high: M,
) -> Option<u16>
    requires higher { Higher lo.now.totals.now.n hi.now }
    requires within { i < length lo.now.places.now }
    requires same { length hi.now ≡ length lo.now.places.now }
    requires so_far { BackIs M.algebra M.Measure.row M.span lo.now.totals.now lo.now.places.now i (slice_index hi.now (i + 1) - 1) back.old.end back.old.after }
    requires rest { StandsIn M.algebra M.Measure.row M.span lo.now.totals.now (take i lo.now.places.now) before }
    ensures found { (v : ℕ) → result ≡ Some v → (slice_index lo.now.places.now i ≤ v) × (v ≤ slice_index hi.now i) × (i + 1 < length hi.now → v ≤ slice_index hi.now (i + 1) - 1) }
    ensures place { HoldsIn M.algebra M.Measure.row M.span lo.now.totals.now → result ≡ lowers M.algebra (entries_in M.Measure.row lo.now.totals.now) (M.Measure.row high) lo.now.places.now hi.now (i + 1) }
    ensures on { (v : ℕ) → result ≡ Some v → BackIs M.algebra M.Measure.row M.span lo.now.totals.now lo.now.places.now i v back.new.end back.new.after }
{
    let greatest = hi.get(i + 1).map_or(hi[i], |next| hi[i].min(*next - 1));
    'places: for v in (lo.places[i]..=greatest).rev() {
        back.advance(lo, i, v);
        let run = lo.totals.neighbours(v as usize, back.end - i);
        let sum = before.plus(run).plus(back.after);
        if sum.not_above(high) {
            return Some(v);
        }
    }
    None
}
