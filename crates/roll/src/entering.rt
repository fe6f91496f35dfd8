// The calls of a straight roll, for any measure.
ghost use Rattle.std.specs.Prelude.{◌≡◌, length};
ghost use Rattle.roll.specs.Cells.{at};
ghost use Rattle.roll.specs.Books.{kind, entering, AlwaysKept, Adds, Takes, SameOrder};
ghost use Rattle.roll.specs.Rolls.{standing, cells_of, Opened, Entered, Struck};
ghost use Rattle.roll.specs.Totals.{Totals, Ready};

use crate::entry::Entry;
use crate::ledger::Ledger;
use crate::refusal::Refusal;
use crate::straight::Roll;
use crate::values::{compares, place_of, sum};
use measure::Measure;

// A roll on which nothing stands. Its most is 120 entries, or the count of cells if that is smaller.
pub fn open<'a, M: Measure>(cells: &'a mut [Entry<M>]) -> Roll<'a, M>
    ensures { Opened (length cells.old) result }
{
    Roll {
        ledger: Ledger::open(cells),
    }
}

// Kept: `len`, `entries`, `get` and `strike` stand here and at the crossed roll, since a type of one's own lends no field's methods.
impl<'a, M: Measure> Roll<'a, M> {
    // How many stand.
    pub fn len(&self) -> usize
        ensures { result ≡ length (standing self.now) }
    {
        self.ledger.len()
    }

    // What stands, in place order.
    pub fn entries(&self) -> &[Entry<M>]
        ensures { result.now ≡ standing self.now }
    {
        self.ledger.entries()
    }

    // What stands at the place, which counts from 1.
    pub fn get(&self, place: usize) -> Option<Entry<M>>
        ensures { result ≡ at (standing self.now) place }
    {
        self.ledger.get(place)
    }

    // What the entries that stand come to.
    pub fn total(&self) -> M
        ensures { Totals M.algebra M.Measure.row M.span (standing self.now) result }
    {
        sum(self.entries())
    }

    // The refusal that entering meets, if any.
    fn refusal(&self, one: Entry<M>) -> Result<(), Refusal>
        ensures { result ≡ entering (kind M.algebra M.Measure.row M.span) (cells_of self.now) (standing self.now) one }
    {
        if !one.value.admitted() {
            return Err(Refusal::Inadmissible);
        }
        if self.ledger.has(one.number) {
            return Err(Refusal::NumberTaken);
        }
        if self.ledger.is_full() {
            return Err(Refusal::RollFull);
        }
        if !compares(self.entries(), one) {
            return Err(Refusal::Incomparable);
        }
        Ok(())
    }

    // Enters the entry at its place in the order, unless it meets a refusal.
    pub fn enter(&mut self, one: Entry<M>) -> Result<(), Refusal>
        ensures { Entered (kind M.algebra M.Measure.row M.span) self.old one result self.new }
    {
        self.refusal(one)?;
        let place = place_of(self.entries(), one);
        self.ledger.insert(place, one)
    }

    // Takes out the entry with the number and closes the gap, unless there is none.
    pub fn strike(&mut self, number: u32) -> Result<(), Refusal>
        ensures { Struck (kind M.algebra M.Measure.row M.span) self.old number result self.new }
    {
        self.ledger.strike(number)
    }
}

// After any calls what stands is in order, each number once, and ready for totals and searches; enterings add and
// strikings take out, and nothing else changes; and the same numbers and rows stand in the same order, however they came
// there.
pub fn order_stands<M: Measure>()
    ensures always { AlwaysKept (kind M.algebra M.Measure.row M.span) }
    ensures ready { Ready M.algebra M.Measure.row M.span }
    ensures adds { Adds (kind M.algebra M.Measure.row M.span) }
    ensures takes { Takes (kind M.algebra M.Measure.row M.span) }
    ensures settled { SameOrder (kind M.algebra M.Measure.row M.span) M.Measure.row }
{}
