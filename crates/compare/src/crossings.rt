// The crossed rolls that are asked.
use crate::driving::{Drive, Failure, Run};
use crate::rolls::{Roll, fill};
use crate::walking::{Asked, Line, Row};
use crossed::asked::Question;
use crossed::entering::open;
use crossed::entries::{Amounts, Columns};
use crossed::rolls;
use crossing::asking::check;
use crossing::beginning::begin;
use crossing::ranks::Ranked;
use measure::Measure;
use roll::refusal::Refusal;

impl From<Row> for Amounts {
    fn from(row: Row) -> Amounts {
        let [first, second, third, fourth] = row.columns;
        Amounts {
            first,
            second,
            third,
            fourth,
        }
    }
}

impl From<Asked> for Question {
    fn from(asked: Asked) -> Question {
        Question {
            size: asked.size,
            band: asked.into(),
        }
    }
}

impl<'a> Roll for rolls::Roll<'a> {
    fn enter_line(&mut self, line: Line) -> Result<(), Refusal> {
        self.enter(line.into())
    }

    fn strike_number(&mut self, number: u32) -> Result<(), Refusal> {
        self.strike(number)
    }
}

// The run of a question to a crossed roll.
pub fn ask_crossed(
    columns: Columns,
    book: &[Line],
    asked: Asked,
    drive: Drive,
) -> Result<Run, Failure> {
    let mut cells = [Line::default().into(); 8];
    let mut roll = open(&mut cells, columns);
    fill(&mut roll, book)?;
    let question = asked.into();
    let mut table = [Ranked::nothing(); 38];
    check(&roll, question, &table)?;
    let mut search = begin(&roll, question, &mut table);
    drive.run(
        asked.size,
        |allowance, page| search.advance(allowance, page),
    )
}
