// Text written into an output from its front on.
ghost use Rattle.std.specs.Prelude.{◌≡◌, ◌≤◌, length};

use itoa::Buffer;

// An output, and the place behind what was written into it so far.
// Kept: a place beside the bytes, since the output is lent and nothing here may allocate.
#[derive(Drop)]
pub(crate) struct Text<'o> {
    out: &'o mut [u8],
    at: usize,
    ghost within: { at ≤ length out.now },
}

impl<'o> Text<'o> {
    ghost use Rattle.std.specs.Prelude.{[], ◌∷◌};
    ghost use Rattle.listing.specs.Text.{field, line, Puts};

    // Nothing is written yet.
    pub(crate) fn new(out: &'o mut [u8]) -> Text<'o>
        ensures lent { result.out.ghost_name ≡ out.entry.ghost_name }
        ensures same { result.out.now ≡ out.old }
        ensures start { result.at ≡ 0 }
    {
        Text { out, at: 0 }
    }

    // How many bytes were written.
    pub(crate) fn len(&self) -> usize
        ensures { result ≡ self.now.at }
    {
        self.at
    }

    // Some bytes.
    pub(crate) fn put(&mut self, bytes: &[u8]) -> Option<()>
        ensures { Puts self.old bytes.now result self.new }
    {
        let at = self.at;
        if self.out.len() - at < bytes.len() {
            return None;
        }
        let end = at + bytes.len();
        self.out[at..end].copy_from_slice(bytes);
        self.at = end;
        Some(())
    }

    // A blank and a number in decimal.
    pub(crate) fn field(&mut self, n: usize) -> Option<()>
        ensures { Puts self.old (field n) result self.new }
    {
        self.put(b" ")?;
        self.put(Buffer::new().format(n).as_bytes())
    }

    // A line of two numbers: its letter, a field for each, and the byte that ends it.
    pub(crate) fn line(&mut self, letter: u8, first: usize, second: usize) -> Option<()>
        ensures { Puts self.old (line letter (first ∷ second ∷ [])) result self.new }
    {
        self.put(&[letter])?;
        self.field(first)?;
        self.field(second)?;
        self.put(b"\n")
    }
}
