ghost use Rattle.std.specs.Prelude.{◌≡◌, ◌<◌, length};
ghost use Rattle.sets.specs.Spaces.{squeeze as squeezes, space, widths};
ghost use Rattle.squeezing.specs.Standing.{Fair, HoldsIn, Squeezes, entries_in};

use crate::fixed::Fixed;
use crate::lowering::{Back, lower, lower_totals};
use crate::raising::{Front, raise, upper_totals};
use crate::table::{Totals, total_at};
use measure::{Band, Measure};
use std::mem::replace;

// Squeezes a space by passes: each raises every position, from the first, and then lowers every one, from the last, until a
// pass moves nothing. None: some position has no place, and the space is empty; the passes end there.
// Kept: a labelled loop that is left from the loops within, by a rule of the project.
// Kept: loops over indices, since a position looks at its neighbours and at the totals, and then is written.
pub(crate) fn squeeze<'t, M: Measure>(
    totals: &'t Totals<'t, M>,
    lo: &mut [u16],
    hi: &mut [u16],
    room: &mut [M],
    band: Band<M>,
) -> Option<()>
    requires many { length hi.old ≡ totals.now.m }
    requires fair { Fair totals.now.n lo.old hi.old }
    requires room { length hi.old < length room.old }
    ensures { Squeezes (HoldsIn M.algebra M.Measure.row M.span totals.now) totals.now.n lo.old hi.old lo.new hi.new (squeezes M.algebra (entries_in M.Measure.row totals.now) (M.Measure.row band.low) (M.Measure.row band.high) (widths lo.old hi.old) (space lo.old hi.old)) result }
{
    let Band { low, high } = band;
    'passes: loop {
        let uppers = Fixed { totals, places: hi };
        upper_totals(&uppers, room);
        let mut front = Front::none();
        let mut moved = false;
        'raising: for i in 0..hi.len() {
            let Some(v) = raise(&uppers, lo, i, &mut front, total_at(room, i + 1), low) else {
                break 'passes;
            };
            moved |= v != replace(&mut lo[i], v);
        }
        let lowers = Fixed { totals, places: lo };
        lower_totals(&lowers, room);
        let mut back = Back::none(lo.len());
        'lowering: for i in (0..lo.len()).rev() {
            let Some(v) = lower(&lowers, hi, i, &mut back, total_at(room, i), high) else {
                break 'passes;
            };
            moved |= v != replace(&mut hi[i], v);
        }
        if !moved {
            return Some(());
        }
    }
    None
}
