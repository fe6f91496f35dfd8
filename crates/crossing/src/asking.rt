// Questions to a crossed roll: which are accepted.
ghost use Rattle.std.specs.Prelude.{◌≡◌, length};
ghost use Rattle.crossing.specs.Asking.{end_within, band_fits, bands_fit, asking};
ghost use Rattle.crossed.specs.Rolls.{standing};

use crate::ranks::Ranked;
use crossed::asked::Question;
use crossed::entries::{Amounts, Columns, past_zero};
use crossed::rolls::Roll;
use measure::Band;
use question::asking::{Side, has_room, size_fits};
use roll::refusal::Refusal;

// Whether an end of a band is in range.
fn end_within(z: i64) -> bool
    ensures { result ≡ end_within z }
{
    (-20_000_000_000_000..=20_000_000_000_000).contains(&z)
}

// Whether two ends make a band, both in range.
fn band_fits(low: i64, high: i64) -> bool
    ensures { result ≡ band_fits low high }
{
    low <= high && end_within(low) && end_within(high)
}

// Whether each column has a band.
fn bands_fit(columns: Columns, band: Band<Amounts>) -> bool
    ensures { result ≡ bands_fit columns band }
{
    let low = band.low.row();
    let high = band.high.row();
    low.iter()
        .zip(&high)
        .take(usize::from(columns.count()))
        .all(|(l, h)| band_fits(*l, *h))
}

// What a question is answered where n entries stand, with a table of so many values: the first refusal that holds.
fn judge(columns: Columns, n: usize, asked: Question, room: usize) -> Result<(), Refusal>
    ensures { result ≡ asking columns n asked room }
{
    if !size_fits(Side::Paid, n, asked.size) {
        return Err(Refusal::BadSize);
    }
    if !bands_fit(columns, asked.band) {
        return Err(Refusal::BadBand);
    }
    if !has_room(n, asked.size, room) {
        return Err(Refusal::ShortTable);
    }
    if !past_zero(columns, asked.band.low) || !past_zero(columns, asked.band.high) {
        return Err(Refusal::PastColumns);
    }
    Ok(())
}

// Whether a question to the roll is accepted with this table, or its refusal.
pub fn check(roll: &Roll, asked: Question, table: &[Ranked]) -> Result<(), Refusal>
    ensures { result ≡ asking roll.now.columns (length (standing roll.now)) asked (length table.now) }
{
    judge(roll.columns(), roll.len(), asked, table.len())
}
