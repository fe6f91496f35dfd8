// The two calls of a question: the first tells the refusal, the second begins the search and cannot refuse.
ghost use Rattle.std.specs.Prelude.{◌≡◌, length, Ok};
ghost use Rattle.roll.specs.Rolls.{standing};
ghost use Rattle.roll.specs.Totals.{Few};
ghost use Rattle.exploring.specs.Meaning.{table_of, Sound};
ghost use Rattle.question.specs.Asking.{asking};
ghost use Rattle.question.specs.Filling.{EndsAsAsked};
ghost use Rattle.question.specs.Beginning.{Starts, Stays, Begins, Answers};

use crate::asking::{Question, Side, judge};
use crate::filling::write_table;
use exploring::starting::over;
use exploring::state::Search;
use measure::{Band, Measure};
use roll::entry::Entry;
use roll::refusal::Refusal;
use roll::straight::Roll;

// Whether a question to the roll is accepted with this table, or its refusal.
pub fn check<M: Measure>(roll: &Roll<M>, asked: Question<M>, table: &[M]) -> Result<(), Refusal>
    ensures { result ≡ asking M.algebra M.Measure.row M.span (length (standing roll.now)) asked (length table.now) }
{
    judge(roll.entries(), asked, table.len())
}

// The search of an accepted question: writes its table and begins.
fn begin_accepted<'t, M: Measure>(
    entries: &[Entry<M>],
    all: M,
    asked: Question<M>,
    table: &'t mut [M],
) -> Search<'t, M>
    requires { asking M.algebra M.Measure.row M.span (length entries.now) asked (length table.old) ≡ Ok tt }
    ensures starts { Starts M.algebra M.Measure.row M.span entries.now all asked table.old result }
    ensures paid { asked.side ≡ Side.Paid → EndsAsAsked M.Measure.row (length entries.now) asked (table_of result) }
{
    write_table(entries, all, asked, table);
    let m = asked.searched_size(entries.len());
    let band = asked.searched_band(all);
    over(table, entries.len(), m, band)
}

// A finished search of size 0.
fn begin_refused<'t, M: Measure>(table: &'t mut [M]) -> Search<'t, M>
    ensures stays { Stays M.algebra M.Measure.row table.old result }
    ensures sound { Sound M.algebra M.Measure.row M.span result }
{
    let nothing = Band {
        low: M::nothing(),
        high: M::nothing(),
    };
    over(table, 0, 0, nothing)
}

// The search of a question to entries that come to `all`. After a refusal the table stays, and the search is finished, of
// size 0.
// Kept: four arguments, since a caller has them apart; a struct of them would be made and taken apart here alone.
pub fn begin_over<'t, M: Measure>(
    entries: &[Entry<M>],
    all: M,
    asked: Question<M>,
    table: &'t mut [M],
) -> Search<'t, M>
    ensures begins { Begins M.algebra M.Measure.row M.span entries.now all asked table.old result }
    ensures sound { Few M.span entries.now → Sound M.algebra M.Measure.row M.span result }
    ensures paid { asking M.algebra M.Measure.row M.span (length entries.now) asked (length table.old) ≡ Ok tt → asked.side ≡ Side.Paid → EndsAsAsked M.Measure.row (length entries.now) asked (table_of result) }
{
    match judge(entries, asked, table.len()) {
        Ok(()) => begin_accepted(entries, all, asked, table),
        Err(_) => begin_refused(table),
    }
}

// The search of a question to the roll. After a refusal the table stays, and the search is finished, of size 0.
pub fn begin<'t, M: Measure>(
    roll: &Roll<M>,
    asked: Question<M>,
    table: &'t mut [M],
) -> Search<'t, M>
    ensures answers { Answers M.algebra M.Measure.row M.span (standing roll.now) asked table.old result }
    ensures sound { Sound M.algebra M.Measure.row M.span result }
{
    begin_over(roll.entries(), roll.total(), asked, table)
}
