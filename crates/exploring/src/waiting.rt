ghost use Rattle.std.specs.Prelude.{◌≡◌, ℕ, ◌+◌, ◌-◌, ◌<◌, ◌≤◌, true, false, [], ◌++◌, slice_index};
ghost use Rattle.sets.specs.Spaces.{Space};
ghost use Rattle.sets.specs.Trace.{Trace, children};
ghost use Rattle.squeezing.specs.Frames.{space_of};
ghost use Rattle.exploring.specs.Settled.{SettledBelow};
ghost use Rattle.exploring.specs.Waiting.{depth_of, to_come, first_of, Ready};

use crate::children::child;
use crate::frontier::Frontier;
use crate::level::Level;
use squeezing::frame::Frame;

impl Frontier {
    // Whether a space waits. What has no child left is let go.
    pub(crate) fn waits(&mut self) -> bool
        ensures root { self.new.root ≡ self.old.root }
        ensures items { (e : ℕ → Space → Trace) → to_come e self.new ≡ to_come e self.old }
        ensures none { result ≡ false → (e : ℕ → Space → Trace) → to_come e self.new ≡ [] }
        ensures some { result ≡ true → Ready self.new }
    {
        if self.fresh {
            return true;
        }
        'popping: while let Some(level) = self.levels.last() {
            if level.next <= level.frame.hi[level.at] {
                return true;
            }
            self.levels.pop();
        }
        false
    }

    // The next space.
    // Kept: the level is written out: `..level` is refused beside ghost fields, and over `self.levels[top].next += 1` no proof closed.
    pub(crate) fn take(&mut self) -> Frame
        requires { Ready self.old }
        ensures root { (self.new.root ≡ self.old.root) × (self.new.fresh ≡ false) }
        ensures same { (result.m ≡ self.old.root.m) × (result.n ≡ self.old.root.n) }
        ensures settled { SettledBelow result (depth_of self.new) }
        ensures items { (e : ℕ → Space → Trace) → to_come e self.old ≡ e (self.old.root.m + 1 - depth_of self.new) (space_of result) ++ to_come e self.new }
    {
        if self.fresh {
            self.fresh = false;
            return self.root;
        }
        let top = self.levels.len() - 1;
        let level = self.levels[top];
        self.levels[top] = Level {
            frame: level.frame,
            at: level.at,
            next: level.next + 1,
        };
        child(level.frame, level.at, level.next)
    }

    // The children of a squeezed space wait, before all others.
    pub(crate) fn push(&mut self, frame: Frame, at: usize)
        requires old { self.old.fresh ≡ false }
        requires same { (frame.m ≡ self.old.root.m) × (frame.n ≡ self.old.root.n) }
        requires open { (depth_of self.old ≤ at) × (at < frame.m) }
        requires settled { SettledBelow frame at }
        ensures root { self.new.root ≡ self.old.root }
        ensures items { (e : ℕ → Space → Trace) → to_come e self.new ≡ children (e (self.old.root.m - depth_of self.old)) (space_of frame) (at + 1) (slice_index frame.lo at) ++ to_come e self.old }
    {
        self.levels.push(Level {
            frame,
            at,
            next: frame.lo[at],
        });
    }

    // The first space waits again, and nothing else.
    pub(crate) fn restart(&mut self)
        ensures root { self.new.root ≡ self.old.root }
        ensures items { (e : ℕ → Space → Trace) → to_come e self.new ≡ first_of e self.old.root.n self.old.root.m }
    {
        self.levels.clear();
        self.fresh = self.root.m > 0;
    }
}
