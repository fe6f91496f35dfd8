// Ranks beside shadowed columns: what a crossed search adds up and compares.
ghost use Rattle.std.specs.Prelude.{◌≡◌, ◌≤◌, ◌∷◌, pos, ◌+ℤ◌, ◌-ℤ◌, ◌*ℤ◌};
ghost use Rattle.std.specs.Int.{int_max};
ghost use Rattle.sets.specs.Crossed.{part_by_part, shadow as shadow_of};
ghost use Rattle.crossed.specs.Entries.{row_of};
ghost use Rattle.crossing.specs.Ranks.{rank_row, rows_of, Fallen, Small, Bounded, Each, EachTwo, EachThree, Ranged, Falls};

use crossed::entries::{Amounts, Entry, NOTHING};
use measure::{Cents, Pair};

// A rank, then the four columns.
pub type Ranked = Pair<Cents, Pair<Cents, Pair<Cents, Pair<Cents, Cents>>>>;

// A rank beside four amounts.
pub(crate) fn ranked(rank: i64, a: Amounts) -> Ranked
    ensures { rank_row result ≡ rank ∷ row_of a }
{
    Pair {
        first: Cents { value: rank },
        second: Pair {
            first: Cents { value: a.first },
            second: Pair {
                first: Cents { value: a.second },
                second: Pair {
                    first: Cents { value: a.third },
                    second: Cents { value: a.fourth },
                },
            },
        },
    }
}

// What is made of the two numbers in each column.
fn in_each<F: Fn(i64, i64) -> i64>(a: Amounts, b: Amounts, make: F) -> Amounts
    requires { EachTwo (F.pre make) a b }
    ensures { EachThree (F.post make) a b result }
{
    Amounts {
        first: make(a.first, b.first),
        second: make(a.second, b.second),
        third: make(a.third, b.third),
        fourth: make(a.fourth, b.fourth),
    }
}

// The greater of two numbers in each column.
fn greater(a: Amounts, b: Amounts) -> Amounts
    ensures { row_of result ≡ part_by_part int_max (row_of a) (row_of b) }
{
    in_each(a, b, i64::max)
}

// By how much an amount falls to another.
fn difference(a: i64, b: i64) -> i64
    requires from { Small a }
    requires to { Small b }
    ensures { result ≡ a -ℤ b }
{
    a - b
}

// By how much each column falls from one entry to the next.
fn fall(a: Amounts, b: Amounts) -> Amounts
    requires from { Each Small a }
    requires to { Each Small b }
    ensures { row_of result ≡ part_by_part ◌-ℤ◌ (row_of a) (row_of b) }
{
    in_each(a, b, difference)
}

// The largest fall of each column from one place to the next, or 0.
pub(crate) fn falls(entries: &[Entry]) -> Amounts
    requires { Ranged entries.now }
    ensures { Falls (rows_of entries.now) result }
{
    let mut most = NOTHING;
    for pair in entries.windows(2) {
        most = greater(most, fall(pair[0].value, pair[1].value));
    }
    most
}

// An amount with its fall added as many times as the rank says.
fn shadowed(fall: i64, amount: i64, rank: u32) -> i64
    requires fallen { Fallen fall }
    requires bounded { Bounded amount }
    requires few { rank ≤ 7260 }
    ensures { result ≡ amount +ℤ fall *ℤ pos rank }
{
    amount + fall * i64::from(rank)
}

// A rank beside the shadowed columns.
pub(crate) fn shadow(falls: Amounts, rank: u32, a: Amounts) -> Ranked
    requires fallen { Each Fallen falls }
    requires bounded { Each Bounded a }
    requires few { rank ≤ 7260 }
    ensures { rank_row result ≡ shadow_of (row_of falls) rank (row_of a) }
{
    let columns = in_each(falls, a, |fall, amount| shadowed(fall, amount, rank));
    ranked(i64::from(rank), columns)
}
