ghost use Rattle.std.specs.Prelude.{◌≡◌, ℕ, ◌+◌, ◌-◌, ◌<◌, ◌≤◌, true, [], length, slice_index, slice_index_or};
ghost use Rattle.exploring.specs.declared.level.Level.{Level};

use crate::level::Level;
use arrayvec::ArrayVec;
use squeezing::frame::Frame;

// The spaces that wait: the first one, if it is fresh, or the children of the spaces on the way down, a level for each.
// Kept: `fresh` is a flag, since the root stays for its sizes and for the next restart; an Option would hold it twice. It stands
// behind the levels: before them, they were copied once more when a search began.
#[derive(Drop)]
pub struct Frontier {
    pub root: Frame,
    pub levels: ArrayVec<Level, 120>,
    pub fresh: bool,
    ghost lowest: { (j : ℕ) → j < root.m → slice_index root.lo j ≡ 1 + j },
    ghost highest: { (j : ℕ) → j < root.m → slice_index root.hi j ≡ root.n - root.m + 1 + j },
    ghost deep: { length levels.items ≤ root.m },
    ghost start: { fresh ≡ true → levels.items ≡ [] },
    ghost climbs: { (x : Level) (d : ℕ) → d < length levels.items → d ≤ (slice_index_or levels.items d x).at },
    ghost sizes: { (x : Level) (d : ℕ) → d < length levels.items → (slice_index_or levels.items d x).frame.m ≡ root.m },
    ghost counts: { (x : Level) (d : ℕ) → d < length levels.items → (slice_index_or levels.items d x).frame.n ≡ root.n },
}
