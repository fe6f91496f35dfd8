// The calls of a crossed roll.
ghost use Rattle.std.specs.Prelude.{◌≡◌, length, replicate, nat_lt};
ghost use Rattle.roll.specs.Order.{place as place_for};
ghost use Rattle.roll.specs.Cells.{at};
ghost use Rattle.crossed.specs.Entries.{zero_entry};
ghost use Rattle.crossed.specs.Books.{before, enters};
ghost use Rattle.crossed.specs.Rolls.{standing, room_of, AlwaysReached, Opened, Entered, Struck, Reopened};
ghost use Rattle.crossed.specs.Reachable.{AlwaysWellFormed};

use crate::entries::{Columns, Entry, NOTHING, in_range, past_zero};
use crate::rolls::Roll;
use roll::ledger::Ledger;
use roll::refusal::Refusal;

// The entry that stands in a cell which holds none.
pub const BLANK: Entry = Entry {
    number: 0,
    value: NOTHING,
};

// How many stand in front of the first whose number is not smaller than the entry's.
// Kept: a chain of its own beside that for values, since one for both would take the test as a closure and be no shorter.
fn place_of(entries: &[Entry], one: Entry) -> usize
    ensures { result ≡ place_for before one entries.now }
{
    entries.iter().take_while(|e| e.number < one.number).count()
}

// Opens a roll on which nothing stands.
pub fn open<'a>(cells: &'a mut [Entry], columns: Columns) -> Roll<'a>
    ensures { Opened (length cells.old) columns result }
{
    Roll {
        ledger: Ledger::open(cells),
        columns,
    }
}

// Kept: `len`, `entries`, `get` and `strike` stand here and at the straight roll, since a type of one's own lends no field's methods.
impl<'a> Roll<'a> {
    // How many entries stand.
    pub fn len(&self) -> usize
        ensures { result ≡ length (standing self.now) }
    {
        self.ledger.len()
    }

    // How many columns the roll has.
    pub fn columns(&self) -> Columns
        ensures { result ≡ self.now.columns }
    {
        self.columns
    }

    // The entry at a place, counted from 1.
    pub fn get(&self, place: usize) -> Option<Entry>
        ensures { result ≡ at (standing self.now) place }
    {
        self.ledger.get(place)
    }

    // What stands, in place order.
    pub fn entries(&self) -> &[Entry]
        ensures { result.now ≡ standing self.now }
    {
        self.ledger.entries()
    }

    // The refusal that entering meets, if any.
    fn refusal(&self, one: Entry) -> Result<(), Refusal>
        ensures { result ≡ enters self.now.columns (room_of self.now) (standing self.now) one }
    {
        if !in_range(self.columns, one.value) {
            return Err(Refusal::Inadmissible);
        }
        if self.ledger.has(one.number) {
            return Err(Refusal::NumberTaken);
        }
        if self.ledger.is_full() {
            return Err(Refusal::RollFull);
        }
        if !past_zero(self.columns, one.value) {
            return Err(Refusal::PastColumns);
        }
        Ok(())
    }

    // Enters an entry at the place that its number gives it, unless it meets a refusal.
    pub fn enter(&mut self, one: Entry) -> Result<(), Refusal>
        ensures { Entered self.old one result self.new }
    {
        self.refusal(one)?;
        let place = place_of(self.entries(), one);
        self.ledger.insert(place, one)
    }

    // Strikes the entry with the number and closes the gap, unless there is none.
    pub fn strike(&mut self, number: u32) -> Result<(), Refusal>
        ensures { Struck self.old number result self.new }
    {
        self.ledger.strike(number)
    }

    // Begins anew with these columns: nothing stands, and every cell is zero.
    pub fn reopen(&mut self, columns: Columns)
        ensures { Reopened self.old columns self.new }
    {
        self.ledger.clear(BLANK);
        self.columns = columns;
    }
}

// Whatever the calls, what stands rises by number, is admitted and is no more than 120; and on every roll stands what calls can
// lead to.
pub fn calls_keep_order()
    ensures order { AlwaysWellFormed }
    ensures reached { AlwaysReached }
{}
