ghost use Rattle.std.specs.Prelude.{◌≡◌, ℕ, ◌+◌, ◌<◌, ◌≤◌, take, slice_index};
ghost use Rattle.sets.specs.Spaces.{child as child_of, space};
ghost use Rattle.exploring.specs.Settled.{SettledBelow};

use squeezing::frame::Frame;

// The child of a space with its first open position, at index `i`, at place `v`: the lower places past it are pushed up.
// Kept: a loop over indices: after `lo[i..m].iter_mut().zip(v..)` a proof knows no place, and `from_fn` makes all 120 at each step.
pub(crate) fn child(frame: Frame, i: usize, v: u16) -> Frame
    requires open { i < frame.m }
    requires place { (slice_index frame.lo i ≤ v) × (v ≤ slice_index frame.hi i) }
    requires settled { SettledBelow frame i }
    ensures same { (result.n ≡ frame.n) × (result.m ≡ frame.m) }
    ensures settled { SettledBelow result (i + 1) }
    ensures is { space (take frame.m result.lo) (take frame.m result.hi) ≡ child_of (space (take frame.m frame.lo) (take frame.m frame.hi)) (i + 1) v }
{
    let Frame {
        n,
        m,
        mut lo,
        mut hi,
    } = frame;
    for j in i..m {
        lo[j] = lo[j].max(v + (j - i) as u16);
    }
    hi[i] = v;
    Frame { n, m, lo, hi }
}
