ghost use Rattle.std.specs.Prelude.{◌≡◌};
ghost use Rattle.roll.specs.Refusals.{number_of};

// Why a call refuses. Within a call the tests run in the order of the numbers.
#[derive(Clone, Copy, PartialEq, Eq, Debug)]
pub enum Refusal {
    // the value to enter is not admitted; crossed: one of its columns is out of range
    Inadmissible = 1,
    // the number to enter stands on the roll
    NumberTaken = 2,
    // the roll holds its most
    RollFull = 3,
    // the value to enter cannot be compared with that of some entry
    Incomparable = 4,
    // the number to strike does not stand on the roll
    NumberUnknown = 5,
    // the number of entries asked for is 0 or above those that stand; on the left side also if it is all of them
    BadSize = 6,
    // low is above high, or an end of the band is not admitted or out of range
    BadBand = 7,
    // the table has too few values
    ShortTable = 8,
    // the page has too few places
    ShortPage = 9,
    // the number of columns is not 1 to 4
    BadColumns = 10,
    // an amount or an end past the columns is not zero
    PastColumns = 11,
    // the kind of a record is none of the four
    UnknownKind = 12,
    // the body of a record is cut short, or the file is empty
    ShortRecord = 13,
    // the first record is no heading, or a later one is
    Misplaced = 14,
    // the file is too long, or the output is too short
    TooLong = 15,
}

impl Refusal {
    // The number of the refusal.
    // Kept: a number, since files, listings and C programs tell a refusal by it.
    pub fn number(self) -> u8
        ensures { result ≡ number_of self }
    {
        self as u8
    }
}
