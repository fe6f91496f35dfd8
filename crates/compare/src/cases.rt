// Random cases: a roll, a question to it, and what its search should tell.
use crate::crossings::ask_crossed;
use crate::dice::Dice;
use crate::driving::{Drive, Failure, Run, expect};
use crate::rolls::{ask_amounts, ask_pairs};
use crate::walking::*;
use crossed::entries::Columns;
use measure::Band;
use question::asking::Side;
use std::alloc::{AllocError, Global};

// What is compared.
#[derive(Clone, Copy)]
pub enum Compared {
    Amounts,
    Pairs,
    Complements,
    Crossed(Columns),
}

impl Compared {
    // How many columns the rows have.
    fn width(self) -> usize {
        match self {
            Compared::Amounts | Compared::Complements => 1,
            Compared::Pairs => 2,
            Compared::Crossed(columns) => usize::from(columns.count()),
        }
    }

    // Whether the rolls are crossed.
    fn is_crossed(self) -> bool {
        matches!(self, Compared::Crossed(_))
    }

    // Whether the entries that are left are asked for too.
    fn has_complements(self) -> bool {
        matches!(self, Compared::Complements)
    }
}

// A random row. Those of a straight roll rise with their height, so that each can be compared with each.
fn draw_row(dice: &mut Dice, what: Compared, flat: [u32; 4]) -> Row {
    let height = dice.below(18);
    let mut row = Row::default();
    for (amount, flat) in row.columns.iter_mut().zip(&flat).take(what.width()) {
        *amount = if what.is_crossed() {
            dice.amount(-4, 12)
        } else {
            i64::from(height / (*flat).max(1)).saturating_sub(4)
        };
    }
    row
}

// Random entries with different numbers, in the order in which they are entered.
fn draw_book(heap: Global, dice: &mut Dice, what: Compared) -> Result<Vec<Line>, AllocError> {
    let most = dice.below(8);
    let first = dice.below(31);
    let step = dice.below(30) + 1;
    let flat = [dice.below(3) + 1, dice.below(3) + 1, 1, 1];
    (0..=most)
        .map(|i| {
            let number = first.wrapping_add(step.wrapping_mul(i)) % 31;
            Line {
                key: if what.is_crossed() { number } else { 0 },
                row: draw_row(dice, what, flat),
                number,
                struck: i > 0 && dice.below(8) == 0,
            }
        })
        .collect(heap)
}

// The entries that stand at last, in place order.
fn standing(heap: Global, book: &[Line]) -> Result<Vec<Line>, AllocError> {
    let mut lines: Vec<Line> = book
        .iter()
        .copied()
        .filter(|line| !line.struck)
        .collect(heap)?;
    lines.sort()?;
    Ok(lines)
}

// A random set of places; of all of them only where those need not leave any.
fn draw_set(dice: &mut Dice, all: Places, what: Compared) -> Places {
    let more = if dice.below(2) == 0 {
        dice.below(256)
    } else {
        0
    };
    let bits = (dice.below(256) | more) & all.bits;
    if bits == 0 || (bits == all.bits && what.has_complements()) {
        Places { bits: 128 }
    } else {
        Places { bits }
    }
}

// How far an end of a band lies from its middle.
fn slack(dice: &mut Dice) -> i64 {
    match dice.below(8) {
        0..=3 => 0,
        4..=6 => dice.amount(1, 6),
        _ => 1_000,
    }
}

// A band around the total of a random set. One of four lies somewhat aside, so that it may be empty.
fn draw_asked(dice: &mut Dice, lines: &[Line], what: Compared) -> Asked {
    let set = draw_set(dice, Places::all(lines.len()), what);
    let aside = if dice.below(4) == 0 {
        dice.amount(-9, 19)
    } else {
        0
    };
    let mut low = set.total(lines);
    let mut high = low;
    let ends = low.columns.iter_mut().zip(high.columns.iter_mut());
    for (low, high) in ends.take(what.width()) {
        *low = low.saturating_add(aside).saturating_sub(slack(dice));
        *high = high.saturating_add(aside).saturating_add(slack(dice));
    }
    Asked {
        side: Side::Paid,
        size: set.size(),
        band: Band { low, high },
    }
}

// A case: the entries in the order in which they are entered, those that stand at last, and the question.
#[derive(Drop)]
struct Case {
    heap: Global,
    what: Compared,
    book: Vec<Line>,
    lines: Vec<Line>,
    asked: Asked,
}

impl Case {
    // A random case.
    fn draw(heap: Global, dice: &mut Dice, what: Compared) -> Result<Case, AllocError> {
        let book = draw_book(heap, dice, what)?;
        let lines = standing(heap, &book)?;
        let asked = draw_asked(dice, &lines, what);
        Ok(Case {
            heap,
            what,
            book,
            lines,
            asked,
        })
    }

    // The set of all places.
    fn all(&self) -> Places {
        Places::all(self.lines.len())
    }

    // The most steps of the search where there are so many sets of the asked size. On a crossed roll each sum of places
    // may take as many as a straight search.
    fn most_steps(&self, sets: usize) -> usize {
        let straight = sets.saturating_mul(2).saturating_sub(1);
        let size = self.asked.size;
        if self.what.is_crossed() {
            straight.saturating_mul(
                size.saturating_mul(self.lines.len().saturating_sub(size))
                    .saturating_add(1),
            )
        } else {
            straight
        }
    }

    // The run of its question, where all steps may be known.
    // Kept: a match, since the kinds are these four and each asks a roll of another type.
    fn run(&self, dice: &mut Dice, known: Option<u32>) -> Result<Run, Failure> {
        let heap = self.heap;
        let drive = Drive { heap, dice, known };
        match self.what {
            Compared::Amounts | Compared::Complements => ask_amounts(&self.book, self.asked, drive),
            Compared::Pairs => ask_pairs(&self.book, self.asked, drive),
            Compared::Crossed(columns) => ask_crossed(columns, &self.book, self.asked, drive),
        }
    }

    // The search has the wanted list in no more than so many steps, and the same steps and list with small allowances.
    fn tells(&self, dice: &mut Dice, wanted: &Vec<Places>, most: usize) -> Result<(), Failure> {
        let run = self.run(dice, None)?;
        let again = self.run(dice, Some(run.steps))?;
        expect(run.sets == *wanted && again.sets == *wanted)?;
        expect(again.steps == run.steps && run.steps as usize <= most)
    }
}

// One case: its lists are those of the walk, and it keeps to the most steps.
pub fn compare(heap: Global, dice: &mut Dice, what: Compared) -> Result<(), Failure> {
    let mut case = Case::draw(heap, dice, what)?;
    let sets = all_sets(heap, case.all(), case.asked.size)?;
    let most = case.most_steps(sets.len());
    let mut wanted = in_band(heap, &case.lines, &sets, case.asked)?;
    if what.is_crossed() {
        wanted.sort_by_key(|set| set.place_sum())?;
    }
    case.tells(dice, &wanted, most)?;
    if what.has_complements() && case.lines.len() > 1 {
        case.asked.side = Side::Left;
        let others = complements(heap, case.all(), &wanted)?;
        case.tells(dice, &others, most)?;
    }
    Ok(())
}
