// The lines of one question.
ghost use Rattle.std.specs.Prelude.{◌≡◌, ◌-◌, ◌≤◌, min, map, length, take, Ok, slice_index};
ghost use Rattle.std.specs.List.{AllByRecursion};
ghost use Rattle.sets.specs.Trace.{somes};
ghost use Rattle.exploring.specs.Meaning.{size_of};
ghost use Rattle.crossed.specs.Rolls.{standing};
ghost use Rattle.crossing.specs.Asking.{asking};
ghost use Rattle.crossing.specs.Meaning.{to_come};
ghost use Rattle.listing.specs.Text.{Puts, Writes};
ghost use Rattle.listing.specs.Listing.{numbers as numbers_at, set_line, sets_lines, question_lines};

use crate::text::Text;
use crossed::asked::Question;
use crossed::entries::Entry;
use crossed::rolls::Roll;
use crossing::beginning::begin;
use crossing::ranks::Ranked;
use crossing::state::Search;
use exploring::state::Told;

// How many steps a question may take.
const STEPS: u32 = 100_000;

// The number of the entry at a place, which counts from 1.
fn number_at(entries: &[Entry], place: u16) -> usize
    ensures { result ≡ slice_index (map (λ e. e.number) entries.now) (place - 1) }
{
    let index = (place as usize).saturating_sub(1);
    entries.get(index).map_or(0, |one| one.number as usize)
}

// A line for a set: the numbers of its entries.
fn put_set(text: &mut Text, entries: &[Entry], places: &[u16]) -> Option<()>
    ensures { Puts text.old (set_line entries.now places.now) result text.new }
{
    text.put(b"S")?;
    for place in places {
        text.field(number_at(entries, *place))?;
    }
    text.put(b"\n")
}

// A line for each set that the search hands out within its steps, and one that says how it ended.
fn put_sets(text: &mut Text, entries: &[Entry], state: &mut Search) -> Option<()>
    ensures lines { AllByRecursion (λ s. length s ≡ size_of state.old.straight) (somes (to_come state.old)) → Puts text.old (sets_lines entries.now (to_come state.old)) result text.new }
    ensures writes { Writes text.old result text.new }
{
    let mut page = [0u16; 120];
    let size = state.places();
    let mut left = STEPS;
    'sets: loop {
        let Ok(answer) = state.advance(left, &mut page) else {
            return None;
        };
        left -= answer.steps;
        match answer.told {
            Told::Spent => return text.put(b"P\n"),
            Told::Finished => return text.put(b"F\n"),
            Told::Set => put_set(text, entries, &page[..size])?,
        }
    }
}

// The lines of an accepted question: its ordinal and size, its sets, and how the search ended.
pub(crate) fn put_question(
    text: &mut Text,
    ordinal: usize,
    roll: &Roll,
    asked: Question,
    table: &mut [Ranked],
) -> Option<()>
    ensures lines { asking roll.now.columns (length (standing roll.now)) asked (length table.old) ≡ Ok tt → Puts text.old (question_lines ordinal (standing roll.now) asked) result text.new }
    ensures writes { Writes text.old result text.new }
{
    text.line(b'Q', ordinal, asked.size)?;
    let mut state = begin(roll, asked, table);
    put_sets(text, roll.entries(), &mut state)
}
