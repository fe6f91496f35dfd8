ghost use Rattle.std.specs.Prelude.{◌+◌, ◌<◌, ◌≤◌, slice_index};
ghost use Rattle.exploring.specs.Settled.{SettledBelow};

use crate::whole::whole;
use squeezing::frame::Frame;

// A squeezed space, the index of its first open position, and the next place to try there.
#[derive(Clone, Copy)]
pub struct Level {
    pub frame: Frame,
    pub at: usize,
    pub next: u16,
    ghost within: { at < frame.m },
    ghost least: { slice_index frame.lo at ≤ next },
    ghost most: { next ≤ slice_index frame.hi at + 1 },
    ghost settled: { SettledBelow frame at },
}

// What stands where no level is. Its space is made by `whole`: with arrays written out here, the 120 levels of a frontier were
// copied several times more when a search began.
impl Default for Level {
    fn default() -> Level {
        Level {
            frame: whole(1, 1),
            at: 0,
            next: 1,
        }
    }
}
