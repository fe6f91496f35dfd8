ghost use Rattle.std.specs.Prelude.{◌≤◌};
ghost use Rattle.crossing.specs.Ranks.{Fallen, Bounded, Each};

use crossed::entries::Amounts;
use measure::Band;

// What the straight searches of later rank totals need: the largest falls, the band as asked, the rank total that is
// explored now, and the last one. All their ends can be worked out exactly: no rank total of 120 entries passes 7,260.
#[derive(Clone, Copy)]
pub(crate) struct Course {
    pub(crate) falls: Amounts,
    pub(crate) band: Band<Amounts>,
    pub(crate) rank: u32,
    pub(crate) last: u32,
    ghost fallen: { Each Fallen falls },
    ghost low: { Each Bounded band.low },
    ghost high: { Each Bounded band.high },
    ghost ahead: { rank ≤ last },
    ghost few: { last ≤ 7260 },
}
