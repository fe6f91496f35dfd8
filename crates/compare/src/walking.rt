// The walk over all sets of at most eight entries, each added up by itself.
use measure::Band;
use question::asking::Side;
use std::alloc::{AllocError, Global};

// Amounts in four columns; those that a roll does not have are zero.
#[derive(Clone, Copy, Default, PartialEq, Eq, PartialOrd, Ord)]
pub struct Row {
    pub columns: [i64; 4],
}

impl Row {
    // The sum of two rows.
    fn plus(mut self, other: Row) -> Row {
        for (sum, amount) in self.columns.iter_mut().zip(other.columns) {
            *sum = sum.saturating_add(amount);
        }
        self
    }

    // Whether no amount is above that of the other row in its column.
    fn not_above(self, other: Row) -> bool {
        self.columns
            .iter()
            .zip(other.columns)
            .all(|(amount, most)| *amount <= most)
    }
}

// An entry. Lines compare as their places do: on a straight roll the key is 0, and they follow their amounts, then their
// numbers; on a crossed roll the key is the number.
#[derive(Clone, Copy, Default, PartialEq, Eq, PartialOrd, Ord)]
pub struct Line {
    pub key: u32,
    pub row: Row,
    pub number: u32,
    pub struck: bool,
}

// Asks for sets of so many entries, with a total in the band in each column.
#[derive(Clone, Copy)]
pub struct Asked {
    pub side: Side,
    pub size: usize,
    pub band: Band<Row>,
}

impl Asked {
    // Whether a total lies in the band, in each column.
    fn admits(&self, total: Row) -> bool {
        self.band.low.not_above(total) && total.not_above(self.band.high)
    }
}

// A set of places, as bits: place 1 has the bit 128, place 8 the bit 1. So of two sets of one size the greater number
// comes first in place order, since it has the smaller place where they first differ.
#[derive(Clone, Copy, Default, PartialEq, Eq)]
pub struct Places {
    pub bits: u32,
}

impl Places {
    // The set of all places where so many entries stand.
    pub fn all(count: usize) -> Places {
        Places {
            bits: 255 & !(255 >> count.min(8)),
        }
    }

    // The set with one place more.
    pub fn with(self, place: u16) -> Places {
        Places {
            bits: self.bits | 256 >> place.min(8),
        }
    }

    // Whether the place is in the set.
    fn contains(self, place: usize) -> bool {
        256 >> place.min(8) & self.bits != 0
    }

    // How many places the set has.
    pub fn size(self) -> usize {
        self.bits.count_ones() as usize
    }

    // The sum of its places.
    pub fn place_sum(self) -> usize {
        (1..=8)
            .filter(|place| self.contains(*place))
            .fold(0, usize::saturating_add)
    }

    // What the entries at its places come to.
    pub fn total(self, lines: &[Line]) -> Row {
        lines
            .iter()
            .zip(1..)
            .filter(|(_, place)| self.contains(*place))
            .fold(Row::default(), |sum, (line, _)| sum.plus(line.row))
    }
}

// All sets of so many of the places, in place order.
pub fn all_sets(heap: Global, all: Places, size: usize) -> Result<Vec<Places>, AllocError> {
    (0..256)
        .rev()
        .map(|bits| Places { bits })
        .filter(|set| set.bits & all.bits == set.bits && set.size() == size)
        .collect(heap)
}

// Those of the sets whose totals lie in the band.
pub fn in_band(
    heap: Global,
    lines: &[Line],
    sets: &[Places],
    asked: Asked,
) -> Result<Vec<Places>, AllocError> {
    sets.iter()
        .copied()
        .filter(|set| asked.admits(set.total(lines)))
        .collect(heap)
}

// The complements of the sets, back to front.
pub fn complements(heap: Global, all: Places, sets: &[Places]) -> Result<Vec<Places>, AllocError> {
    sets.iter()
        .rev()
        .map(|set| Places {
            bits: all.bits ^ set.bits,
        })
        .collect(heap)
}
