// Keeping entries in lent cells, for any order in which they are kept and any value.
ghost use Rattle.std.specs.Prelude.{◌≡◌, ◌-◌, ◌<◌, ◌≤◌, min, false, not, [], length, take, replicate, is_ok, nat_lt, ◌==◌};
ghost use Rattle.std.specs.List.{insert, remove, position};
ghost use Rattle.roll.specs.Order.{numbered, without};
ghost use Rattle.roll.specs.Cells.{held, room_of, at, striking, Inserted};

use crate::entry::Entry;
use crate::ledger::Ledger;
use crate::refusal::Refusal;

// Puts the entry at the index, and moves each from there on by one cell; the last is lost.
// Kept: a loop over indices, here and in closing a gap: the slice's rotations call `memmove`, which a C program that links the
// library need not have otherwise.
fn insert<V: Copy>(cells: &mut [Entry<V>], index: usize, one: Entry<V>)
    requires { index ≤ length cells.old }
    ensures { cells.new ≡ take (length cells.old) (insert cells.old index one) }
{
    let mut carried = one;
    for i in index..cells.len() {
        let next = cells[i];
        cells[i] = carried;
        carried = next;
    }
}

// Takes out what stands at the index, and moves each after it back by one cell; the last stays, too.
fn close_gap<V: Copy>(cells: &mut [Entry<V>], index: usize)
    requires { index < length cells.old }
    ensures { take (length cells.old - 1) cells.new ≡ remove cells.old index }
{
    for i in index..cells.len() - 1 {
        cells[i] = cells[i + 1];
    }
}

// Sets each cell to the entry.
// Kept: a loop, since the slice's `fill` asks that a clone cannot fail, which `Copy` does not promise.
fn fill<V: Copy>(cells: &mut [Entry<V>], one: Entry<V>)
    ensures { cells.new ≡ replicate (length cells.old) one }
{
    for cell in cells.iter_mut() {
        *cell = one;
    }
}

impl<'a, V: Copy> Ledger<'a, V> {
    // A ledger in which nothing stands.
    pub fn open(cells: &'a mut [Entry<V>]) -> Ledger<'a, V>
        ensures none { held result ≡ [] }
        ensures room { room_of result ≡ length cells.old }
    {
        Ledger { cells, count: 0 }
    }

    // How many stand.
    pub fn len(&self) -> usize
        ensures { result ≡ length (held self.now) }
    {
        self.count
    }

    // What stands, in place order.
    pub fn entries(&self) -> &[Entry<V>]
        ensures { result.now ≡ held self.now }
    {
        &self.cells[..self.count]
    }

    // What stands at the place, which counts from 1.
    pub fn get(&self, place: usize) -> Option<Entry<V>>
        ensures { result ≡ at (held self.now) place }
    {
        let index = place.checked_sub(1)?;
        self.entries().get(index).copied()
    }

    // Whether no more may stand.
    pub fn is_full(&self) -> bool
        ensures { result ≡ not (nat_lt (length (held self.now)) (min 120 (room_of self.now))) }
    {
        self.count >= self.cells.len().min(120)
    }

    // The index of the first that has the number.
    fn find(&self, number: u32) -> Option<usize>
        ensures { result ≡ position (λ e. e.number == number) (held self.now) }
    {
        self.entries().iter().position(|e| e.number == number)
    }

    // Whether the number stands.
    pub fn has(&self, number: u32) -> bool
        ensures { result ≡ numbered (λ e. e.number) number (held self.now) }
    {
        self.entries().iter().any(|e| e.number == number)
    }

    // Puts the entry behind the first `index`, or behind all if there are fewer.
    pub fn insert(&mut self, index: usize, one: Entry<V>) -> Result<(), Refusal>
        ensures { Inserted self.old index one result self.new }
    {
        if self.is_full() {
            return Err(Refusal::RollFull);
        }
        let n = self.count + 1;
        insert(&mut self.cells[..n], index.min(self.count), one);
        self.count = n;
        Ok(())
    }

    // Takes out the entry with the number and closes the gap, unless there is none.
    pub fn strike(&mut self, number: u32) -> Result<(), Refusal>
        ensures answer { result ≡ striking (λ e. e.number) (held self.old) number }
        ensures after { held self.new ≡ without (λ e. e.number) number (held self.old) }
        ensures room { room_of self.new ≡ room_of self.old }
        ensures untouched { is_ok result ≡ false → self.new ≡ self.old }
    {
        let Some(index) = self.find(number) else {
            return Err(Refusal::NumberUnknown);
        };
        close_gap(&mut self.cells[..self.count], index);
        self.count -= 1;
        Ok(())
    }

    // Empties the ledger, and fills every cell with the entry.
    pub fn clear(&mut self, blank: Entry<V>)
        ensures none { held self.new ≡ [] }
        ensures cells { self.new.cells.now ≡ replicate (room_of self.old) blank }
    {
        fill(self.cells, blank);
        self.count = 0;
    }
}
