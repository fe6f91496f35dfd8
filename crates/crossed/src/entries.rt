// Entries of a crossed roll, and what a roll of so many columns admits.
ghost use Rattle.std.specs.Prelude.{◌≡◌};
ghost use Rattle.crossed.specs.Entries.{within, in_range, past_zero, columns_of, count_of, row_of};

use roll::refusal::Refusal;

// One amount a column, in cents.
// Kept: four fields and no array, so that definitions know how many there are.
#[derive(Clone, Copy, PartialEq, Eq, Debug)]
pub struct Amounts {
    pub first: i64,
    pub second: i64,
    pub third: i64,
    pub fourth: i64,
}

// No amount in any column.
pub const NOTHING: Amounts = Amounts {
    first: 0,
    second: 0,
    third: 0,
    fourth: 0,
};

// An open entry: its number, and its amount in each column.
pub type Entry = roll::entry::Entry<Amounts>;

// How many columns a roll has. The amounts past them are zero.
#[derive(Clone, Copy, PartialEq, Eq, Debug)]
pub enum Columns {
    One = 1,
    Two = 2,
    Three = 3,
    Four = 4,
}

impl Columns {
    // The number of columns.
    pub fn count(self) -> u8
        ensures { result ≡ count_of self }
    {
        self as u8
    }
}

// The columns that a number means.
impl TryFrom<u8> for Columns {
    type Error = Refusal;

    ghost try_from_gives = { λ d r. r ≡ columns_of d };

    fn try_from(d: u8) -> Result<Columns, Refusal> {
        match d {
            1 => Ok(Columns::One),
            2 => Ok(Columns::Two),
            3 => Ok(Columns::Three),
            4 => Ok(Columns::Four),
            _ => Err(Refusal::BadColumns),
        }
    }
}

impl Amounts {
    // The amounts in a row, that of the first column first.
    pub fn row(self) -> [i64; 4]
        ensures { result ≡ row_of self }
    {
        [self.first, self.second, self.third, self.fourth]
    }
}

// Whether the amount is one that an entry may have.
fn is_within(z: i64) -> bool
    ensures { result ≡ within z }
{
    (-100_000_000_000..=100_000_000_000).contains(&z)
}

// Whether the amounts in the columns are in range.
pub(crate) fn in_range(columns: Columns, a: Amounts) -> bool
    ensures { result ≡ in_range columns a }
{
    a.row()[..usize::from(columns.count())]
        .iter()
        .all(|z| is_within(*z))
}

// Whether the amounts past the columns are zero.
pub fn past_zero(columns: Columns, a: Amounts) -> bool
    ensures { result ≡ past_zero columns a }
{
    a.row()[usize::from(columns.count())..]
        .iter()
        .all(|z| *z == 0)
}
