ghost use Rattle.std.specs.Prelude.{length};
ghost use Rattle.squeezing.specs.Frames.{Leaves};

use crate::frame::Frame;
use crate::passes::squeeze;
use crate::table::Totals;
use measure::{Band, Measure};

// What squeezing leaves of a space between the ends of a band, if it leaves any set. `room` is for the totals of one pass.
// Where the table or the room is too short for the space, nothing is left.
pub fn squeezed<M: Measure>(
    frame: Frame,
    table: &[M],
    room: &mut [M],
    band: Band<M>,
) -> Option<Frame>
    ensures { Leaves M.algebra M.Measure.row M.span table.now (length room.old) (M.Measure.row band.low) (M.Measure.row band.high) frame result }
{
    let Frame {
        n,
        m,
        mut lo,
        mut hi,
    } = frame;
    let totals = Totals::over(table, n, m)?;
    if room.len() <= m {
        return None;
    }
    squeeze(&totals, &mut lo[0..m], &mut hi[0..m], room, band)?;
    Some(Frame { n, m, lo, hi })
}
