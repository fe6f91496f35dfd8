ghost use Rattle.std.specs.Prelude.{◌≡◌, ◌<◌, length, slice_index};
ghost use Rattle.std.specs.List.{range_with_len};
ghost use Rattle.squeezing.specs.Standing.{Rising, Roomy, StandsIn, Upto};

use crate::table::Totals;
use measure::Measure;

// The places of a space that stay while others move, with the table that their totals are looked up in: the upper places
// while positions are raised, the lower ones while they are lowered.
#[derive(Drop)]
pub(crate) struct Fixed<'t, 'p, M> {
    pub(crate) totals: &'t Totals<'t, M>,
    pub(crate) places: &'p [u16],
    ghost many: { length places.now ≡ totals.now.m },
    ghost roomy: { Roomy totals.now.m places.now },
    ghost rising: { Rising totals.now.m places.now },
    ghost upto: { Upto totals.now.m totals.now.n places.now },
}

impl<'t, 'p, M: Measure> Fixed<'t, 'p, M> {
    // The total of the place at an index.
    pub(crate) fn total(&self, j: usize) -> M
        requires { j < length self.now.places.now }
        ensures { StandsIn M.algebra M.Measure.row M.span self.now.totals.now (range_with_len (slice_index self.now.places.now j) 1) result }
    {
        self.totals.neighbours(self.places[j] as usize, 1)
    }
}
