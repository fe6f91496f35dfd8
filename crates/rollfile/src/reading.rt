// Reading a roll from a file.
ghost use Rattle.std.specs.Prelude.{◌≡◌, length, slice_index};
ghost use Rattle.crossed.specs.Entries.{columns_of};
ghost use Rattle.records.specs.Records.{plain, located, Behind};
ghost use Rattle.rollfile.specs.Files.{opened, Applied, Started, Ran, Loaded, Filled, Checked, Read};

use crossed::entering::{BLANK, open};
use crossed::entries::{Columns, Entry};
use crossed::rolls::Roll;
use records::decoding::{entry_in, heading_in, number_in};
use records::reader::{Fault, Reader, Record};
use roll::refusal::Refusal;

// Applies one record to the roll. A question changes nothing.
pub fn apply(roll: &mut Roll, item: Record) -> Result<(), Refusal>
    ensures { Applied roll.old (plain item.entry) result roll.new }
{
    match item {
        Record::Entry(body) => roll.enter(entry_in(body)),
        Record::Strike(body) => roll.strike(number_in(body)),
        Record::Heading(_) | Record::Question(_) => Ok(()),
    }
}

// The columns that the body of a heading says.
fn heading_columns(body: &[u8]) -> Result<Columns, Fault>
    ensures { result ≡ located 0 (columns_of (slice_index body.now 0)) }
{
    Columns::try_from(heading_in(body)).map_err(|refusal| Fault::new(refusal, 0, false))
}

// Reads the heading.
fn start(reader: &mut Reader) -> Result<Columns, Fault>
    requires { reader.old.place ≡ 0 }
    ensures { Started reader.old result reader.new }
{
    match reader.next()? {
        Some(Record::Heading(body)) => heading_columns(body),
        _ => Ok(Columns::One),
    }
}

// The columns that a file says, or the fault of its heading.
pub fn heading(bytes: &[u8]) -> Result<Columns, Fault>
    ensures { result ≡ opened bytes.now }
{
    let mut reader = Reader::new(bytes);
    start(&mut reader)
}

// Applies the records after the heading in turn, up to the first fault.
fn read_on(reader: &mut Reader, roll: &mut Roll) -> Result<(), Fault>
    requires { Behind reader.old }
    ensures { Ran reader.old roll.old result roll.new }
{
    'records: loop {
        let place = reader.place();
        let Some(item) = reader.next()? else {
            return Ok(());
        };
        apply(roll, item).map_err(|refusal| Fault::new(refusal, place, false))?;
    }
}

// Reads a file onto the roll, up to the first fault.
fn read_all(bytes: &[u8], roll: &mut Roll) -> Result<(), Fault>
    ensures { Loaded bytes.now roll.old result roll.new }
{
    let mut reader = Reader::new(bytes);
    roll.reopen(start(&mut reader)?);
    read_on(&mut reader, roll)
}

// Reads a file onto the roll. After a fault the roll is empty, of one column, and its cells are zero.
fn fill(bytes: &[u8], roll: &mut Roll) -> Result<(), Fault>
    ensures { Filled bytes.now roll.old result roll.new }
{
    let read = read_all(bytes, roll);
    if read.is_err() {
        roll.reopen(Columns::One);
    }
    read
}

// Tests a file over cells that a roll can have later: its fault, or none. After a fault every cell is zero.
pub fn check_file(bytes: &[u8], cells: &mut [Entry]) -> Result<(), Fault>
    ensures { Checked bytes.now (length cells.old) result cells.new }
{
    let read = fill(bytes, &mut open(cells, Columns::One));
    if read.is_err() {
        cells.fill(BLANK);
    }
    read
}

// The roll that a file gives. After a fault it is empty, of one column, and every cell is zero.
pub fn read_roll<'a>(bytes: &[u8], cells: &'a mut [Entry]) -> Roll<'a>
    ensures { Read bytes.now (length cells.old) result }
{
    let mut roll = open(cells, Columns::One);
    let _ = fill(bytes, &mut roll);
    roll
}
