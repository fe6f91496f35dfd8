// Going through the records of a file, each tried on the roll as it then stands.
ghost use Rattle.std.specs.Prelude.{◌≡◌, ◌<◌, ◌≤◌, length};
ghost use Rattle.records.specs.Records.{plain};
ghost use Rattle.listing.specs.Listing.{question_in, is_question as asks, fault_in, Tried};

use crossed::asked::Question;
use crossed::entering::open;
use crossed::entries::Entry;
use crossed::rolls::Roll;
use crossing::asking::check;
use crossing::ranks::Ranked;
use records::decoding::asked_in;
use records::reader::{Fault, Reader, Record};
use roll::refusal::Refusal;
use rollfile::reading::{apply, heading};

// The question that a record asks, if it asks one.
pub(crate) fn question_of(item: Record) -> Option<Question>
    ensures { result ≡ question_in (plain item.entry) }
{
    match item {
        Record::Question(body) => Some(asked_in(body)),
        _ => None,
    }
}

// Whether a record is a question.
fn is_question(item: Record) -> bool
    ensures { result ≡ asks (plain item.entry) }
{
    matches!(item, Record::Question(_))
}

// Tries a record on the roll: a question is checked, and changes nothing; an entry or a strike is applied.
fn attempt(roll: &mut Roll, item: Record, table: &[Ranked]) -> Result<(), Refusal>
    ensures { Tried roll.old (length table.now) (plain item.entry) result roll.new }
{
    match question_of(item) {
        Some(asked) => check(roll, asked, table),
        None => apply(roll, item),
    }
}

// The records that are left of a file behind its heading, and the roll as it stands before them.
#[derive(Drop)]
pub(crate) struct Walk<'a> {
    reader: Reader<'a>,
    pub(crate) roll: Roll<'a>,
    ghost short: { length reader.bytes.now ≤ 65536 },
    ghost positive: { 0 < reader.place },
    ghost inside: { reader.place ≤ length reader.bytes.now },
}

impl<'a> Walk<'a> {
    ghost use Rattle.listing.specs.Walk.{lines_left, Opens, Steps};

    // Opens an empty roll of the columns that a file says, before the records behind its heading; or the heading's fault.
    pub(crate) fn open(file: &'a [u8], cells: &'a mut [Entry]) -> Result<Walk<'a>, Fault>
        ensures { Opens (length cells.old) file.now result }
    {
        let columns = heading(file)?;
        let mut reader = Reader::new(file);
        let _ = reader.next();
        let roll = open(cells, columns);
        Ok(Walk { reader, roll })
    }

    // Reads the next record and tries it on the roll; none at the end of the file, or the fault.
    pub(crate) fn step(&mut self, table: &[Ranked]) -> Result<Option<Record<'a>>, Fault>
        ensures { Steps (length table.now) self.old result self.new }
    {
        let reader = &mut self.reader;
        let place = reader.place();
        let Some(item) = reader.next()? else {
            return Ok(None);
        };
        let asks = is_question(item);
        attempt(&mut self.roll, item, table).map_err(|refusal| Fault::new(refusal, place, asks))?;
        Ok(Some(item))
    }

    // The first fault of the records that are left, those of questions included.
    pub(crate) fn faults(&mut self, table: &[Ranked]) -> Result<(), Fault>
        ensures { result ≡ fault_in (lines_left (length table.now) self.old 0) }
    {
        'records: while let Some(_) = self.step(table)? {}
        Ok(())
    }
}
