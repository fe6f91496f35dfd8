// Writing a roll as a file.
ghost use Rattle.rollfile.specs.Writing.{Written};
ghost use Rattle.rollfile.specs.Laws.{EntriesBack, BodiesBack, ColumnsBack, RoundTrip, SameBytes};

use crate::encoding::{Writer, blank, heading_of};
use crossed::rolls::Roll;
use roll::refusal::Refusal;

// Writes the file of a roll, and tells its length. A short output is set to zero.
pub fn write(roll: &Roll, out: &mut [u8]) -> Result<usize, Refusal>
    ensures { Written roll.now out.old result out.new }
{
    let entries = roll.entries();
    let size = 2 + 37 * entries.len();
    if out.len() < size {
        blank(out);
        return Err(Refusal::TooLong);
    }
    let mut writer = Writer { out, at: 0 };
    writer.put(&heading_of(roll.columns()));
    for one in entries {
        writer.put_entry(*one);
    }
    Ok(size)
}

// What is written is read again as it was, and what is read is written again as it was.
pub fn written_rolls_read_back()
    ensures entries { EntriesBack }
    ensures bodies { BodiesBack }
    ensures columns { ColumnsBack }
    ensures rolls { RoundTrip }
    ensures bytes { SameBytes }
{}
