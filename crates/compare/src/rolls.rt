// The rolls that are asked, and the straight ones: of amounts, and of two amounts side by side.
use crate::driving::{Drive, Failure, Run};
use crate::walking::{Asked, Line, Row};
use measure::{Band, Cents, Measure, Pair};
use question::asking::Question;
use question::beginning::{begin, check};
use roll::entering::open;
use roll::entry::Entry;
use roll::refusal::Refusal;
use roll::straight;

// A roll that lines can be entered on and struck from.
// Kept: two impls with equal bodies, since straight and crossed rolls are two types, each with its own calls.
pub trait Roll {
    // Enters the line.
    fn enter_line(&mut self, line: Line) -> Result<(), Refusal>;

    // Strikes the number.
    fn strike_number(&mut self, number: u32) -> Result<(), Refusal>;
}

// Enters all lines, and strikes those that are struck.
pub fn fill<R: Roll>(roll: &mut R, book: &[Line]) -> Result<(), Refusal> {
    for line in book {
        roll.enter_line(*line)?;
    }
    for line in book {
        if line.struck {
            roll.strike_number(line.number)?;
        }
    }
    Ok(())
}

impl From<Row> for Cents {
    fn from(row: Row) -> Cents {
        Cents {
            value: row.columns[0],
        }
    }
}

impl From<Row> for Pair<Cents, Cents> {
    fn from(row: Row) -> Pair<Cents, Cents> {
        let [first, second, ..] = row.columns;
        Pair {
            first: Cents { value: first },
            second: Cents { value: second },
        }
    }
}

impl<V: From<Row>> From<Line> for Entry<V> {
    fn from(line: Line) -> Entry<V> {
        Entry {
            number: line.number,
            value: line.row.into(),
        }
    }
}

impl<V: From<Row>> From<Asked> for Band<V> {
    fn from(asked: Asked) -> Band<V> {
        Band {
            low: asked.band.low.into(),
            high: asked.band.high.into(),
        }
    }
}

impl<M: From<Row>> From<Asked> for Question<M> {
    fn from(asked: Asked) -> Question<M> {
        Question {
            side: asked.side,
            size: asked.size,
            band: asked.into(),
        }
    }
}

impl<'a, M: Measure + From<Row>> Roll for straight::Roll<'a, M> {
    fn enter_line(&mut self, line: Line) -> Result<(), Refusal> {
        self.enter(line.into())
    }

    fn strike_number(&mut self, number: u32) -> Result<(), Refusal> {
        self.strike(number)
    }
}

// The question, where the roll accepts it after all lines are entered, and those that are struck are struck.
fn accepted<M: Measure + From<Row>>(
    roll: &mut straight::Roll<M>,
    book: &[Line],
    asked: Asked,
    table: &[M],
) -> Result<Question<M>, Refusal> {
    fill(roll, book)?;
    let question = asked.into();
    check(roll, question, table)?;
    Ok(question)
}

// The run of a question to a roll of amounts.
// Kept: a function for each measure, since one for any fails at `begin`, whose search is not known to fit in memory.
pub fn ask_amounts(book: &[Line], asked: Asked, drive: Drive) -> Result<Run, Failure> {
    let mut cells = [Line::default().into(); 8];
    let mut table = [Cents::nothing(); 38];
    let mut roll = open(&mut cells);
    let question = accepted(&mut roll, book, asked, &table)?;
    let mut search = begin(&roll, question, &mut table);
    drive.run(
        search.places(),
        |allowance, page| search.advance(allowance, page),
    )
}

// The run of a question to a roll of two amounts side by side.
pub fn ask_pairs(book: &[Line], asked: Asked, drive: Drive) -> Result<Run, Failure> {
    let mut cells = [Line::default().into(); 8];
    let mut table = [Pair::<Cents, Cents>::nothing(); 38];
    let mut roll = open(&mut cells);
    let question = accepted(&mut roll, book, asked, &table)?;
    let mut search = begin(&roll, question, &mut table);
    drive.run(
        search.places(),
        |allowance, page| search.advance(allowance, page),
    )
}
