ghost use Rattle.roll.specs.Cells.{held};
ghost use Rattle.crossed.specs.Reachable.{Reachable};

use crate::entries::{Amounts, Columns};
use roll::ledger::Ledger;

// A crossed roll: open entries with amounts in so many columns, in the order of their numbers. What stands is what opening,
// entering and striking can lead to.
#[derive(Drop)]
pub struct Roll<'a> {
    pub(crate) ledger: Ledger<'a, Amounts>,
    pub(crate) columns: Columns,
    ghost reached: { ∥ Reachable columns (held ledger) ∥₁ },
}
