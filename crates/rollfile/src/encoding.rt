// Numbers, amounts and entries written as bytes: the high byte first, amounts in two's complement.
ghost use Rattle.std.specs.Prelude.{◌≡◌, ◌+◌, ◌≤◌, length, replicate};
ghost use Rattle.records.specs.Bytes.{entry_bytes, heading_bytes};
ghost use Rattle.rollfile.specs.Writing.{Puts};

use crossed::entries::{Columns, Entry};
use records::reader::Kind;

// Sets each byte to zero.
pub fn blank(out: &mut [u8])
    ensures { out.new ≡ replicate (length out.old) 0 }
{
    out.fill(0);
}

// An output, and the place behind what is written.
// Kept: a type beside the text of listings, since its room is tested before it writes, and its puts cannot fail.
#[derive(Drop)]
pub(crate) struct Writer<'a> {
    pub(crate) out: &'a mut [u8],
    pub(crate) at: usize,
}

impl<'a> Writer<'a> {
    // Writes the bytes.
    pub(crate) fn put(&mut self, bytes: &[u8])
        requires { self.old.at + length bytes.now ≤ length self.old.out.now }
        ensures { Puts self.old bytes.now self.new }
    {
        let end = self.at + bytes.len();
        self.out[self.at..end].copy_from_slice(bytes);
        self.at = end;
    }

    // Writes the record of an entry.
    pub(crate) fn put_entry(&mut self, one: Entry)
        requires { self.old.at + 37 ≤ length self.old.out.now }
        ensures { Puts self.old (entry_bytes one) self.new }
    {
        self.put(&[Kind::Entry as u8]);
        self.put(&one.number.to_be_bytes());
        self.put(&one.value.first.to_be_bytes());
        self.put(&one.value.second.to_be_bytes());
        self.put(&one.value.third.to_be_bytes());
        self.put(&one.value.fourth.to_be_bytes());
    }
}

// The heading of a roll of so many columns.
pub(crate) fn heading_of(columns: Columns) -> [u8; 2]
    ensures { result ≡ heading_bytes columns }
{
    [Kind::Heading as u8, columns as u8]
}
