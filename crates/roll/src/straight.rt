ghost use Rattle.roll.specs.Cells.{held};
ghost use Rattle.roll.specs.Books.{kind, Kept};
ghost use Rattle.roll.specs.Props.{Kept-prop};

use crate::ledger::Ledger;
use measure::Measure;

// A straight roll: open entries in the order of their values, each number once, all of them admitted.
#[derive(Drop)]
pub struct Roll<'a, M: Measure> {
    pub(crate) ledger: Ledger<'a, M>,
    ghost kept: { Kept (kind M.algebra M.Measure.row M.span) (held ledger) } by { Kept-prop (kind M.algebra M.Measure.row M.span) (held ledger) },
}
