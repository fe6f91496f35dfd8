// Questions to a straight roll: which are accepted, and the band that is sought.
ghost use Rattle.std.specs.Prelude.{◌≡◌, ◌+◌, ◌≤◌, ◌&&◌, length, nat_le};
ghost use Rattle.question.specs.Worked.{WorkedExamples};
ghost use Rattle.question.specs.Asking.{Needed, sought, size_fits, band_fits, table_size, asking, end};

use measure::{Band, Measure};
use roll::entry::Entry;
use roll::refusal::Refusal;

// Whether a question names the entries that are paid, or those that are left.
#[derive(Clone, Copy, PartialEq, Eq, Debug)]
pub enum Side {
    Paid,
    Left,
}

// Asks for sets of so many entries with a total in the band.
#[derive(Clone, Copy)]
pub struct Question<M> {
    pub side: Side,
    pub size: usize,
    pub band: Band<M>,
}

impl<M: Measure> Question<M> {
    // How many places the sought sets have, where n entries stand.
    pub(crate) fn searched_size(self, n: usize) -> usize
        ensures { result ≡ sought self.side n self.size }
    {
        match self.side {
            Side::Paid => self.size,
            Side::Left => n.saturating_sub(self.size),
        }
    }

    // The sought band, where all entries come to `all`: as it was asked, or what its ends leave of all.
    pub(crate) fn searched_band(self, all: M) -> Band<M>
        ensures low { Needed self.side (M.span all + M.span self.band.high ≤ 240) → M.Measure.row result.low ≡ end M.algebra self.side (M.Measure.row all) (M.Measure.row self.band.low) (M.Measure.row self.band.high) }
        ensures high { Needed self.side (M.span all + M.span self.band.low ≤ 240) → M.Measure.row result.high ≡ end M.algebra self.side (M.Measure.row all) (M.Measure.row self.band.high) (M.Measure.row self.band.low) }
    {
        match self.side {
            Side::Paid => self.band,
            Side::Left => Band {
                low: all.minus(self.band.high),
                high: all.minus(self.band.low),
            },
        }
    }
}

// Whether so many of n entries can be asked for.
pub fn size_fits(side: Side, n: usize, size: usize) -> bool
    ensures { result ≡ size_fits side n size }
{
    match side {
        Side::Paid => (1..=n).contains(&size),
        Side::Left => (1..n).contains(&size),
    }
}

// Whether low is not above high, and both are admitted.
fn band_fits<M: Measure>(band: Band<M>) -> bool
    ensures { result ≡ band_fits M.algebra M.Measure.row M.span band }
{
    band.low.not_above(band.high) && band.low.admitted() && band.high.admitted()
}

// Whether the table of a search for m of n entries has room.
// Kept: in 128 bits, since n has no bound here.
fn table_fits(n: usize, m: usize, room: usize) -> bool
    requires { m ≤ n }
    ensures { result ≡ nat_le (table_size n m) room }
{
    let n = n as u128;
    let m = m as u128;
    m * (2 * n - m + 1) / 2 + 2 <= room as u128
}

// Whether m of n entries can be looked for with a table of so many values.
pub fn has_room(n: usize, m: usize, room: usize) -> bool
    ensures { result ≡ (nat_le m n && nat_le (table_size n m) room) }
{
    m <= n && table_fits(n, m, room)
}

// What a question is answered: the first refusal that holds.
pub(crate) fn judge<M: Measure>(
    entries: &[Entry<M>],
    asked: Question<M>,
    room: usize,
) -> Result<(), Refusal>
    ensures { result ≡ asking M.algebra M.Measure.row M.span (length entries.now) asked room }
{
    let n = entries.len();
    if !size_fits(asked.side, n, asked.size) {
        return Err(Refusal::BadSize);
    }
    if !band_fits(asked.band) {
        return Err(Refusal::BadBand);
    }
    if !table_fits(n, asked.searched_size(n), room) {
        return Err(Refusal::ShortTable);
    }
    Ok(())
}

// The examples worked by hand come out of the definitions as they should.
pub fn worked_examples_hold()
    ensures { WorkedExamples }
{}
