ghost use Rattle.std.specs.Prelude.{◌≤◌, length};

use crate::entry::Entry;

// Entries that stand in lent cells: in the first of them, and never more than 120.
// Kept: a count beside the cells, since their memory is the caller's and nothing here may allocate.
#[derive(Drop)]
pub struct Ledger<'a, V> {
    pub(crate) cells: &'a mut [Entry<V>],
    pub(crate) count: usize,
    ghost within: { count ≤ length cells.now },
    ghost few: { count ≤ 120 },
}
