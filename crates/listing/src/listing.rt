// The listing of a file. The whole file is tried first, so that the bytes behind an `R` line stay as they were.
ghost use Rattle.std.specs.Prelude.{◌≡◌, ℕ, List, length, Ok};
ghost use Rattle.listing.specs.Exact.{SearchesAreExact};
ghost use Rattle.listing.specs.Text.{Puts, Writes, Lists};
ghost use Rattle.listing.specs.Listing.{lines_of, listing as listing_of, fault_in, ListsFile};
ghost use Rattle.listing.specs.Walk.{lines_left};

use crate::questions::put_question;
use crate::text::Text;
use crate::walk::{Walk, question_of};
use crossed::entering::BLANK;
use crossed::entries::Entry;
use crossing::ranks::Ranked;
use measure::Measure;
use records::reader::Fault;
use roll::refusal::Refusal;
use rollfile::encoding::blank;

// The first fault of a file, those of its questions included.
fn faults_in(file: &[u8], cells: &mut [Entry], table: &[Ranked]) -> Result<(), Fault>
    ensures { result ≡ fault_in (lines_of (length cells.old) (length table.now) file.now) }
{
    let mut walk = Walk::open(file, cells)?;
    walk.faults(table)
}

// The lines of the questions that are left, in a file that has no fault; none where they do not fit the output.
fn put_on(text: &mut Text, walk: &mut Walk, table: &mut [Ranked]) -> Option<()>
    ensures lines { (bs : List ℕ) → lines_left (length table.old) walk.old 0 ≡ Ok bs → Puts text.old bs result text.new }
    ensures writes { Writes text.old result text.new }
{
    let mut ordinal = 0usize;
    'records: while let Ok(Some(item)) = walk.step(table) {
        if let Some(asked) = question_of(item) {
            ordinal = ordinal.saturating_add(1);
            put_question(text, ordinal, &walk.roll, asked, table)?;
        }
    }
    Some(())
}

// The lines of all questions of a file that has no fault; none where they do not fit the output.
fn put_questions(
    text: &mut Text,
    file: &[u8],
    cells: &mut [Entry],
    table: &mut [Ranked],
) -> Option<()>
    ensures lines { (bs : List ℕ) → lines_of (length cells.old) (length table.old) file.now ≡ Ok bs → Puts text.old bs result text.new }
    ensures writes { Writes text.old result text.new }
{
    let Ok(mut walk) = Walk::open(file, cells) else {
        return Some(());
    };
    put_on(text, &mut walk, table)
}

// The listing, or the line of the fault; none where it does not fit the output.
fn put_listing(
    text: &mut Text,
    file: &[u8],
    cells: &mut [Entry],
    table: &mut [Ranked],
) -> Option<()>
    ensures { Puts text.old (listing_of (length cells.old) (length table.old) file.now) result text.new }
{
    match faults_in(file, cells, table) {
        Err(fault) => text.line(b'R', usize::from(fault.refusal.number()), fault.place),
        Ok(()) => put_questions(text, file, cells, table),
    }
}

// Writes the listing of a file to the front of the output, and tells its length. Where it does not fit, the whole output is
// set to zero.
pub fn list(file: &[u8], out: &mut [u8]) -> Result<usize, Refusal>
    ensures output { Lists out.old result out.new }
    ensures lines { ListsFile file.now out.old result out.new }
    ensures searches { SearchesAreExact }
{
    let mut cells = [BLANK; 120];
    let mut table = [Ranked::nothing(); 1600];
    let mut text = Text::new(out);
    let put = put_listing(&mut text, file, &mut cells, &mut table);
    let n = text.len();
    let Some(()) = put else {
        blank(out);
        return Err(Refusal::TooLong);
    };
    Ok(n)
}
