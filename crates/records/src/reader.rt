// The records of a file, one after another. Each is a byte of kind and a body of fixed length.
ghost use Rattle.std.specs.Prelude.{◌≡◌, ◌<◌, length};
ghost use Rattle.records.specs.Records.{fault_of, kind_of, byte_of, size_of, At, AtKind, ReadBody, ReadNext};

use roll::refusal::Refusal;

// Where a refusal comes from: the form of the file, a call on the roll, or a question.
#[derive(Clone, Copy, PartialEq, Eq, Debug)]
pub enum Layer {
    File,
    Roll,
    Question,
}

// Why a file is refused, with the place of the kind byte of the record that is at fault.
#[derive(Clone, Copy, PartialEq, Eq, Debug)]
pub struct Fault {
    pub refusal: Refusal,
    pub place: usize,
    pub layer: Layer,
}

impl Fault {
    // The fault of a record with its layer; `question` says whether it is a question record.
    // Kept: a flag, since a fault may also be of no record, and has no kind then.
    pub fn new(refusal: Refusal, place: usize, question: bool) -> Fault
        ensures { result ≡ fault_of question place refusal }
    {
        let layer = if matches!(
            refusal,
            Refusal::UnknownKind | Refusal::ShortRecord | Refusal::Misplaced | Refusal::TooLong
        ) {
            Layer::File
        } else if question {
            Layer::Question
        } else {
            Layer::Roll
        };
        Fault {
            refusal,
            place,
            layer,
        }
    }
}

// The kinds of record, each with its kind byte.
#[derive(Clone, Copy, PartialEq, Eq, Debug)]
pub enum Kind {
    Heading = 1,
    Entry = 2,
    Strike = 3,
    Question = 4,
}

impl Kind {
    // How many bytes the body of a record has.
    fn size(self) -> usize
        ensures { result ≡ size_of (byte_of self) }
    {
        match self {
            Kind::Heading => 1,
            Kind::Entry => 36,
            Kind::Strike => 4,
            Kind::Question => 65,
        }
    }
}

// The kind that a kind byte means.
impl TryFrom<u8> for Kind {
    type Error = Refusal;

    ghost try_from_gives = { λ byte r. r ≡ kind_of byte };

    fn try_from(byte: u8) -> Result<Kind, Refusal> {
        match byte {
            1 => Ok(Kind::Heading),
            2 => Ok(Kind::Entry),
            3 => Ok(Kind::Strike),
            4 => Ok(Kind::Question),
            _ => Err(Refusal::UnknownKind),
        }
    }
}

// A record that is read, with its body, a part of the file.
#[derive(Clone, Copy)]
pub enum Record<'a> {
    Heading(&'a [u8]),
    Entry(&'a [u8]),
    Strike(&'a [u8]),
    Question(&'a [u8]),
}

// A file, and the place of the kind byte of the next record.
#[derive(Drop)]
pub struct Reader<'a> {
    bytes: &'a [u8],
    place: usize,
}

impl<'a> Reader<'a> {
    // Begins at the front of a file.
    pub fn new(bytes: &'a [u8]) -> Reader<'a>
        ensures file { result.bytes.now ≡ bytes.now }
        ensures start { result.place ≡ 0 }
    {
        Reader { bytes, place: 0 }
    }

    // The place of the kind byte of the next record.
    pub fn place(&self) -> usize
        ensures { result ≡ self.now.place }
    {
        self.place
    }

    // The next record, none at the end of the file, or the fault.
    // Kept: a method and no iterator's, since callers ask for the place before they read.
    pub fn next(&mut self) -> Result<Option<Record<'a>>, Fault>
        ensures { ReadNext self.old result self.new }
    {
        let place = self.place;
        let bytes = self.bytes;
        if bytes.len() > 65536 {
            return Err(Fault::new(Refusal::TooLong, 0, false));
        }
        let Some(byte) = bytes.get(place) else {
            if place == 0 {
                return Err(Fault::new(Refusal::ShortRecord, 0, false));
            }
            return Ok(None);
        };
        match Kind::try_from(*byte).map_err(|refusal| Fault::new(refusal, place, false))? {
            Kind::Heading => self.heading(),
            Kind::Entry => self.entering(),
            Kind::Strike => self.striking(),
            Kind::Question => self.question(),
        }
    }

    // Kept: the reader has one method for each kind of record, by a rule of the project. That it stands at a kind byte each asks,
    // and no type says it: at the end of a file it does not.
    // Reads the heading at the place.
    fn heading(&mut self) -> Result<Option<Record<'a>>, Fault>
        requires { AtKind self.old 1 }
        ensures { ReadNext self.old result self.new }
    {
        Ok(Some(Record::Heading(self.body(Kind::Heading)?)))
    }

    // Reads the entry at the place.
    fn entering(&mut self) -> Result<Option<Record<'a>>, Fault>
        requires { AtKind self.old 2 }
        ensures { ReadNext self.old result self.new }
    {
        Ok(Some(Record::Entry(self.body(Kind::Entry)?)))
    }

    // Reads the strike at the place.
    fn striking(&mut self) -> Result<Option<Record<'a>>, Fault>
        requires { AtKind self.old 3 }
        ensures { ReadNext self.old result self.new }
    {
        Ok(Some(Record::Strike(self.body(Kind::Strike)?)))
    }

    // Reads the question at the place.
    fn question(&mut self) -> Result<Option<Record<'a>>, Fault>
        requires { AtKind self.old 4 }
        ensures { ReadNext self.old result self.new }
    {
        Ok(Some(Record::Question(self.body(Kind::Question)?)))
    }

    // The body of a record of the kind at the place. Only a heading stands first, and only there.
    fn body(&mut self, kind: Kind) -> Result<&'a [u8], Fault>
        requires { At self.old }
        ensures { ReadBody (byte_of kind) self.old result self.new }
    {
        let place = self.place;
        let bytes = self.bytes;
        let size = kind.size();
        if bytes.len() - place - 1 < size {
            return Err(Fault::new(Refusal::ShortRecord, place, false));
        }
        if (kind == Kind::Heading) != (place == 0) {
            return Err(Fault::new(Refusal::Misplaced, place, false));
        }
        let end = place + 1 + size;
        self.place = end;
        Ok(&bytes[place + 1..end])
    }
}
