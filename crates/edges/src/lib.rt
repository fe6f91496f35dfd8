// Tests at the edges of the refusals, in a crate of their own: a crate with tests is proved twice.
#![tactic(auto)]

ghost use Rattle.std.specs.Prelude.{◌≡◌, Ok, Err};
ghost use Rattle.roll.specs.Refusals.{number_of};

use roll::refusal::Refusal;

// The number of the refusal, or 0.
// Kept: a number, since the tests of `numbers` say by it what files, listings and C programs tell.
pub fn told(answer: Result<(), Refusal>) -> u8
    ensures { elim answer [ Ok u ↦ result ≡ 0 | Err e ↦ result ≡ number_of e ] }
{
    answer.map_or_else(Refusal::number, |()| 0)
}

#[cfg(test)]
mod entries {
    use crossed::entries::{Amounts, Entry as CrossedEntry};
    use measure::{Cents, Pair};
    use roll::entry::Entry;

    pub fn cents(value: i64) -> Cents {
        Cents { value }
    }

    // An entry of a straight roll of amounts.
    pub fn entry(number: u32, value: i64) -> Entry<Cents> {
        let value = cents(value);
        Entry { number, value }
    }

    // An entry of a straight roll of two amounts side by side.
    pub fn pair(number: u32, first: i64, second: i64) -> Entry<Pair<Cents, Cents>> {
        let first = cents(first);
        let second = cents(second);
        let value = Pair { first, second };
        Entry { number, value }
    }

    // Amounts of which the last two are zero.
    pub fn amounts(first: i64, second: i64) -> Amounts {
        Amounts {
            first,
            second,
            third: 0,
            fourth: 0,
        }
    }

    // An entry of a crossed roll.
    pub fn crossed(number: u32, first: i64, second: i64) -> CrossedEntry {
        let value = amounts(first, second);
        CrossedEntry { number, value }
    }
}

#[cfg(test)]
mod questions {
    use crate::entries::{amounts, cents, crossed, entry};
    use crossed::asked::Question as CrossedQuestion;
    use crossed::entering::open as open_crossed;
    use crossed::entries::Columns;
    use crossing::asking::check as check_crossed;
    use crossing::ranks::Ranked;
    use listing::listing::list;
    use measure::{Band, Cents, Measure};
    use question::asking::{Question, Side};
    use question::beginning::{begin, check};
    use roll::entering::open;
    use roll::refusal::Refusal;

    // A question to a straight roll.
    pub fn asked(side: Side, size: usize, low: i64, high: i64) -> Question<Cents> {
        Question {
            side,
            size,
            band: Band {
                low: cents(low),
                high: cents(high),
            },
        }
    }

    // A question to a crossed roll, for one entry from zero to these amounts.
    fn up_to(first: i64, second: i64) -> CrossedQuestion {
        CrossedQuestion {
            size: 1,
            band: Band {
                low: amounts(0, 0),
                high: amounts(first, second),
            },
        }
    }

    #[test]
    fn straight_questions(rt: HostRuntime) {
        let mut cells = [entry(0, 0); 4];
        let mut roll = open(&mut cells);
        let _ = roll.enter(entry(1, 1));
        let _ = roll.enter(entry(2, 2));
        let _ = roll.enter(entry(3, 3));
        let _ = roll.enter(entry(4, 4));
        let nine = [cents(0); 9];
        let eight = [cents(0); 8];
        assert_eq!(rt;
            check(&roll, asked(Side::Paid, 0, 5, 5), &nine),
            Err(Refusal::BadSize)
        );
        assert_eq!(rt;
            check(&roll, asked(Side::Paid, 5, 5, 5), &nine),
            Err(Refusal::BadSize)
        );
        assert_eq!(rt;
            check(&roll, asked(Side::Left, 4, 5, 5), &nine),
            Err(Refusal::BadSize)
        );
        assert_eq!(rt;
            check(&roll, asked(Side::Paid, 2, 6, 5), &nine),
            Err(Refusal::BadBand)
        );
        assert_eq!(rt;
            check(&roll, asked(Side::Paid, 2, 5, 2_000_000_000_000_001), &nine),
            Err(Refusal::BadBand)
        );
        assert_eq!(rt;
            check(&roll, asked(Side::Paid, 2, 5, 2_000_000_000_000_000), &nine),
            Ok(())
        );
        assert_eq!(rt;
            check(&roll, asked(Side::Left, 2, 5, 5), &eight),
            Err(Refusal::ShortTable)
        );
    }

    #[test]
    fn pages(rt: HostRuntime) {
        let mut cells = [entry(0, 0); 2];
        let mut roll = open(&mut cells);
        let _ = roll.enter(entry(1, 1));
        let _ = roll.enter(entry(2, 2));
        let mut table = [cents(0); 5];
        let mut search = begin(&roll, asked(Side::Paid, 2, 3, 3), &mut table);
        let mut one = [7u16; 1];
        let mut two = [7u16; 2];
        assert!(rt; search.advance(9, &mut one).is_err());
        assert_eq!(rt; one[0], 7);
        assert!(rt; search.advance(1, &mut two).is_ok());
        assert_eq!(rt; two[1], 2);
    }

    #[test]
    fn crossed_questions(rt: HostRuntime) {
        let mut cells = [crossed(0, 0, 0); 1];
        let mut roll = open_crossed(&mut cells, Columns::One);
        let _ = roll.enter(crossed(1, 5, 0));
        let table = [Ranked::nothing(); 3];
        let short = [Ranked::nothing(); 2];
        assert_eq!(rt;
            check_crossed(&roll, up_to(20_000_000_000_000, 0), &table),
            Ok(())
        );
        assert_eq!(rt;
            check_crossed(&roll, up_to(20_000_000_000_001, 0), &table),
            Err(Refusal::BadBand)
        );
        assert_eq!(rt;
            check_crossed(&roll, up_to(-1, 0), &table),
            Err(Refusal::BadBand)
        );
        assert_eq!(rt;
            check_crossed(&roll, up_to(5, 1), &short),
            Err(Refusal::ShortTable)
        );
        assert_eq!(rt;
            check_crossed(&roll, up_to(5, 1), &table),
            Err(Refusal::PastColumns)
        );
    }

    #[test]
    fn outputs(rt: HostRuntime) {
        let mut exact = [7u8; 7];
        let mut short = [7u8; 6];
        let mut longer = [7u8; 8];
        assert_eq!(rt; list(&[], &mut exact), Ok(7));
        assert_eq!(rt; list(&[], &mut short), Err(Refusal::TooLong));
        assert_eq!(rt; short[0], 0);
        assert_eq!(rt; list(&[], &mut longer), Ok(7));
        assert_eq!(rt; longer[7], 7);
    }
}

#[cfg(test)]
mod straight_rolls {
    use crate::entries::{entry, pair};
    use roll::entering::open;
    use roll::refusal::Refusal;

    #[test]
    fn cents_are_refused_at_the_edge(rt: HostRuntime) {
        let mut cells = [entry(0, 0); 2];
        let mut roll = open(&mut cells);
        assert_eq!(rt;
            roll.enter(entry(7, 2_000_000_000_000_001)),
            Err(Refusal::Inadmissible)
        );
        assert_eq!(rt; roll.enter(entry(7, 2_000_000_000_000_000)), Ok(()));
        assert_eq!(rt; roll.enter(entry(7, 3)), Err(Refusal::NumberTaken));
        assert_eq!(rt; roll.enter(entry(8, 3)), Ok(()));
        assert_eq!(rt; roll.enter(entry(9, 3)), Err(Refusal::RollFull));
        assert_eq!(rt; roll.strike(9), Err(Refusal::NumberUnknown));
        assert_eq!(rt; roll.total().value, 2_000_000_000_000_003);
        assert_eq!(rt; roll.strike(7), Ok(()));
        assert_eq!(rt; roll.len(), 1);
        assert!(rt; roll.get(0).is_none());
        assert!(rt; roll.get(2).is_none());
    }

    #[test]
    fn pairs_must_compare(rt: HostRuntime) {
        let mut cells = [pair(0, 0, 0); 3];
        let mut roll = open(&mut cells);
        assert_eq!(rt; roll.enter(pair(2, 1, 1)), Ok(()));
        assert_eq!(rt; roll.enter(pair(3, 0, 9)), Err(Refusal::Incomparable));
        assert_eq!(rt; roll.enter(pair(1, 1, 1)), Ok(()));
        assert_eq!(rt; roll.entries().len(), 2);
        assert_eq!(rt; roll.get(1).map(|first| first.number), Some(1));
    }
}

#[cfg(test)]
mod crossed_rolls {
    use crate::entries::crossed;
    use crossed::entering::open;
    use crossed::entries::Columns;
    use roll::refusal::Refusal;

    #[test]
    fn numbers_rise(rt: HostRuntime) {
        let mut cells = [crossed(0, 0, 0); 2];
        let mut roll = open(&mut cells, Columns::One);
        assert_eq!(rt; roll.enter(crossed(7, -5, 0)), Ok(()));
        assert_eq!(rt; roll.enter(crossed(3, 100_000_000_000, 0)), Ok(()));
        assert_eq!(rt;
            roll.enter(crossed(4, 100_000_000_001, 0)),
            Err(Refusal::Inadmissible)
        );
        assert_eq!(rt; roll.enter(crossed(3, 1, 0)), Err(Refusal::NumberTaken));
        assert_eq!(rt; roll.enter(crossed(4, 1, 1)), Err(Refusal::RollFull));
        assert_eq!(rt; roll.strike(7), Ok(()));
        assert_eq!(rt; roll.strike(7), Err(Refusal::NumberUnknown));
        assert_eq!(rt; roll.enter(crossed(4, 1, 1)), Err(Refusal::PastColumns));
        assert_eq!(rt; roll.len(), 1);
    }
}

#[cfg(test)]
mod files {
    use crate::entries::crossed;
    use crossed::entering::open;
    use crossed::entries::Columns;
    use records::reader::{Fault, Layer};
    use roll::refusal::Refusal;
    use rollfile::reading::{check_file, read_roll};
    use rollfile::writing::write;

    // A fault of its three parts.
    fn fault(refusal: Refusal, place: usize, layer: Layer) -> Fault {
        Fault {
            refusal,
            place,
            layer,
        }
    }

    #[test]
    fn there_and_back(rt: HostRuntime) {
        let mut cells = [crossed(0, 0, 0); 2];
        let mut out = [9; 80];
        let mut roll = open(&mut cells, Columns::Two);
        assert_eq!(rt; roll.enter(crossed(7, -5, 0)), Ok(()));
        assert_eq!(rt; roll.enter(crossed(3, 1, 0)), Ok(()));
        assert_eq!(rt; write(&roll, &mut out), Ok(76));
        assert!(rt; out[1] == 2 && out[6] == 3 && out[43] == 7 && out[76] == 9);
        let mut others = [crossed(1, 1, 0); 2];
        assert!(rt; read_roll(&out[0..76], &mut others).len() == 2);
    }

    #[test]
    fn faults(rt: HostRuntime) {
        let mut cells = [crossed(8, 8, 0); 2];
        assert_eq!(rt;
            check_file(&[], &mut cells),
            Err(fault(Refusal::ShortRecord, 0, Layer::File))
        );
        assert_eq!(rt;
            check_file(&[1, 5], &mut cells),
            Err(fault(Refusal::BadColumns, 0, Layer::Roll))
        );
        assert_eq!(rt;
            check_file(&[1, 4, 9], &mut cells),
            Err(fault(Refusal::UnknownKind, 2, Layer::File))
        );
        assert_eq!(rt;
            check_file(&[1, 4, 1, 2], &mut cells),
            Err(fault(Refusal::Misplaced, 2, Layer::File))
        );
        assert_eq!(rt;
            check_file(&[1, 4, 3, 0, 0, 0, 1], &mut cells),
            Err(fault(Refusal::NumberUnknown, 2, Layer::Roll))
        );
        assert_eq!(rt; cells[1].number, 0);
    }
}

// The number of each refusal, as a call tells it.
#[cfg(test)]
mod numbers {
    use crate::entries::{cents, crossed, entry, pair};
    use crate::questions::asked;
    use crate::told;
    use crossed::entering::open as open_crossed;
    use crossed::entries::Columns;
    use listing::listing::list;
    use question::asking::Side;
    use question::beginning::{begin, check};
    use roll::entering::open;
    use rollfile::reading::check_file;

    #[test]
    fn of_rolls(rt: HostRuntime) {
        let mut cells = [entry(0, 0); 2];
        let mut roll = open(&mut cells);
        assert_eq!(rt; told(roll.enter(entry(7, 2_000_000_000_000_001))), 1);
        assert_eq!(rt; told(roll.enter(entry(7, 2_000_000_000_000_000))), 0);
        assert_eq!(rt; told(roll.enter(entry(7, 3))), 2);
        assert_eq!(rt; told(roll.enter(entry(8, 3))), 0);
        assert_eq!(rt; told(roll.enter(entry(9, 3))), 3);
        assert_eq!(rt; told(roll.strike(9)), 5);
        let mut pairs = [pair(0, 0, 0); 2];
        let mut roll = open(&mut pairs);
        assert_eq!(rt; told(roll.enter(pair(2, 1, 1))), 0);
        assert_eq!(rt; told(roll.enter(pair(3, 0, 9))), 4);
        let mut crosses = [crossed(0, 0, 0); 1];
        let mut roll = open_crossed(&mut crosses, Columns::One);
        assert_eq!(rt; told(roll.enter(crossed(4, 1, 1))), 11);
    }

    #[test]
    fn of_questions(rt: HostRuntime) {
        let mut cells = [entry(0, 0); 2];
        let mut roll = open(&mut cells);
        let _ = roll.enter(entry(1, 1));
        let _ = roll.enter(entry(2, 2));
        let mut table = [cents(0); 5];
        let short = [cents(0); 4];
        assert_eq!(rt; told(check(&roll, asked(Side::Paid, 0, 3, 3), &table)), 6);
        assert_eq!(rt; told(check(&roll, asked(Side::Paid, 2, 3, 2), &table)), 7);
        assert_eq!(rt; told(check(&roll, asked(Side::Paid, 2, 3, 3), &short)), 8);
        assert_eq!(rt; told(check(&roll, asked(Side::Paid, 2, 3, 3), &table)), 0);
        let mut search = begin(&roll, asked(Side::Paid, 2, 3, 3), &mut table);
        let mut page = [0; 1];
        assert_eq!(rt; told(search.advance(9, &mut page).map(|_| ())), 9);
    }

    // The number of the refusal of a file, or 0.
    fn of_file(file: &[u8]) -> u8 {
        let mut cells = [crossed(0, 0, 0); 2];
        told(check_file(file, &mut cells).map_err(|fault| fault.refusal))
    }

    #[test]
    fn of_files(rt: HostRuntime) {
        assert_eq!(rt; of_file(&[1, 4]), 0);
        assert_eq!(rt; of_file(&[1, 4, 3, 0, 0, 0, 1]), 5);
        assert_eq!(rt; of_file(&[1, 5]), 10);
        assert_eq!(rt; of_file(&[1, 4, 9]), 12);
        assert_eq!(rt; of_file(&[]), 13);
        assert_eq!(rt; of_file(&[1, 4, 1, 2]), 14);
        let mut out = [0; 6];
        assert_eq!(rt; told(list(&[], &mut out).map(|_| ())), 15);
    }
}
