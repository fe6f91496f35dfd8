// The search of a question to a crossed roll begins: its table is written, and the least rank total comes first.
ghost use Rattle.std.specs.Prelude.{◌≡◌, ◌≤◌, length, take};
ghost use Rattle.crossed.specs.Entries.{row_of};
ghost use Rattle.crossed.specs.Rolls.{standing};
ghost use Rattle.crossing.specs.Ranks.{Fallen, Each, Ranged};
ghost use Rattle.crossing.specs.Beginning.{Banded, Fits, Casts, Leads, Shadowed, Starts, Stays, Begins};

use crate::asking::check;
use crate::course::Course;
use crate::ranks::{Ranked, falls, ranked, shadow};
use crate::state::Search;
use crossed::asked::Question;
use crossed::entries::{Amounts, Entry, NOTHING};
use crossed::rolls::Roll;
use exploring::state::Search as Searching;
use measure::{Band, Measure};
use question::asking::{Question as Straight, Side};
use question::beginning::begin_over;
use roll::entry::Entry as Shadow;

// Writes the shadows of the entries.
fn cast(entries: &[Entry], falls: Amounts, shadows: &mut [Shadow<Ranked>])
    requires ranged { Ranged entries.now }
    requires few { length entries.now ≤ 120 }
    requires fallen { Each Fallen falls }
    requires room { length entries.now ≤ length shadows.old }
    ensures { Casts (row_of falls) entries.now (take (length entries.now) shadows.new) }
{
    for (i, one) in entries.iter().enumerate() {
        shadows[i] = Shadow {
            number: one.number,
            value: shadow(falls, (i + 1) as u32, one.value),
        };
    }
}

// The course of the sets that are asked for, of n entries.
fn course_of(falls: Amounts, asked: Question, n: usize) -> Course
    requires fallen { Each Fallen falls }
    requires band { Banded asked.band }
    requires most { asked.size ≤ n }
    requires few { n ≤ 120 }
    ensures { Leads falls asked n result }
{
    let n = n as u32;
    let m = asked.size as u32;
    Course {
        falls,
        band: asked.band,
        rank: m * (m + 1) / 2,
        last: m * (2 * n - m + 1) / 2,
    }
}

// The straight search of a question over the shadows of what stands: its table is written, and no rank total is explored
// yet.
fn over_shadows<'t>(
    entries: &[Entry],
    falls: Amounts,
    asked: Question,
    table: &'t mut [Ranked],
) -> Searching<'t, Ranked>
    requires ranged { Ranged entries.now }
    requires fallen { Each Fallen falls }
    requires fits { Fits (length entries.now) asked (length table.old) }
    ensures { Shadowed (row_of falls) entries.now asked table.old result }
{
    let nothing = Ranked::nothing();
    let mut shadows = [Shadow {
        number: 0,
        value: nothing,
    }; 120];
    cast(entries, falls, &mut shadows);
    let question = Straight {
        side: Side::Paid,
        size: asked.size,
        band: Band {
            low: ranked(0, asked.band.low),
            high: ranked(0, asked.band.high),
        },
    };
    begin_over(&shadows[..entries.len()], nothing, question, table)
}

// The search of an accepted question: writes its table and begins at the least rank total.
#[tactic(auto, using(crate::proofs::Accepting::ranged))]
fn begin_accepted<'t>(roll: &Roll, asked: Question, table: &'t mut [Ranked]) -> Search<'t>
    requires { Fits (length (standing roll.now)) asked (length table.old) }
    ensures { Starts (standing roll.now) asked table.old result }
{
    let entries = roll.entries();
    let falls = falls(entries);
    let course = course_of(falls, asked, entries.len());
    let mut straight = over_shadows(entries, falls, asked, table);
    straight.restart(course.ends());
    Search { straight, course }
}

// A finished search of size 0.
fn begin_refused<'t>(table: &'t mut [Ranked]) -> Search<'t>
    ensures { Stays table.old result }
{
    let nothing = Ranked::nothing();
    let question = Straight {
        side: Side::Paid,
        size: 0,
        band: Band {
            low: nothing,
            high: nothing,
        },
    };
    Search {
        straight: begin_over(&[], nothing, question, table),
        course: Course {
            falls: NOTHING,
            band: Band {
                low: NOTHING,
                high: NOTHING,
            },
            rank: 0,
            last: 0,
        },
    }
}

// The search of a question to the roll: writes its table and begins. After a refusal the table stays, and the search is
// finished, of size 0.
pub fn begin<'t>(roll: &Roll, asked: Question, table: &'t mut [Ranked]) -> Search<'t>
    ensures { Begins roll.now.columns (standing roll.now) asked table.old result }
{
    match check(roll, asked, table) {
        Ok(()) => begin_accepted(roll, asked, table),
        Err(_) => begin_refused(table),
    }
}
