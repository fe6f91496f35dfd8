ghost use Rattle.std.specs.Prelude.{MatchOption};
ghost use Rattle.exploring.specs.Settled.{SettledBelow, OpensAt};

use squeezing::frame::Frame;

// The index of the first open position: its lower place is below its upper one. None: all are settled.
pub(crate) fn first_open(frame: &Frame) -> Option<usize>
    ensures { MatchOption result (SettledBelow frame.now frame.now.m) (OpensAt frame.now) }
{
    let m = frame.m;
    frame.lo[..m]
        .iter()
        .zip(&frame.hi[..m])
        .position(|(lo, hi)| lo < hi)
}
