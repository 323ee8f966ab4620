ghost use Rattle.std.specs.Prelude.{◌≡◌, ◌≢◌, List, [], MatchResult};
ghost use Rattle.networks.specs.declared.refusal.Refusal.TheVariants.{UnknownKind};
ghost use Rattle.jobs.specs.Kinds.{kind_byte};
ghost use Rattle.jobs.specs.Reading.{due_section, complete, listing, after, Read, Next};

use super::decode::decode_body;
use super::entry::Entry;
use super::fault::Fault;
use super::form::Form;
use super::kind::Kind;
use super::reader::{LONGEST_FILE, Reader, Stage};
use super::record::Record;
use super::section::Section;
use networks::Refusal;

impl Stage {
    fn due(self) -> Section
        ensures { result ≡ due_section self }
    {
        match self {
            Stage::Head => Section::Heading,
            Stage::Ways(_) => Section::Listing,
            Stage::Calls => Section::Calls,
            Stage::Sizes => Section::Sizes,
        }
    }

    fn is_complete(self) -> bool
        ensures { result ≡ complete self }
    {
        match self {
            Stage::Head | Stage::Ways(_) => false,
            Stage::Calls | Stage::Sizes => true,
        }
    }

    fn of_listing(left: u16) -> Stage
        ensures { result ≡ listing left }
    {
        if left == 0 {
            Stage::Calls
        } else {
            Stage::Ways(left)
        }
    }

    fn next(self, entry: Entry) -> Stage
        ensures { result ≡ after self entry }
    {
        match (self, entry) {
            (Stage::Head, Entry::Head { ways, .. }) => Stage::of_listing(ways),
            (Stage::Head, _) => Stage::Calls,
            (Stage::Ways(left), _) => Stage::of_listing(left.saturating_sub(1)),
            (Stage::Calls, _) => Stage::Calls,
            (Stage::Sizes, _) => Stage::Sizes,
        }
    }
}

// The kind that the byte at the offset tells.
fn kind_at(byte: u8, offset: usize) -> Result<Kind, Fault>
    ensures { MatchResult result (λ k. kind_byte k ≡ byte)
        (λ e. (e ≡ record { refusal = UnknownKind; offset = offset }) × ((k : Kind) → kind_byte k ≢ byte)) }
{
    Kind::try_from(byte).map_err(move |refusal| Fault { refusal, offset })
}

impl<'a> Reader<'a> {
    // A reader at the start of a file.
    pub fn new(form: Form, bytes: &'a [u8]) -> Self
        ensures same { result.bytes.now ≡ bytes.now }
        ensures none { Read form [] result }
    {
        let stage = match form {
            Form::Job => Stage::Head,
            Form::Grid => Stage::Sizes,
        };
        Reader {
            bytes,
            offset: 0,
            stage,
        }
    }

    // The refusal at the record that the reader stands at.
    fn fault(&self, refusal: Refusal) -> Fault
        ensures { result ≡ record { refusal = refusal; offset = self.now.offset } }
    {
        Fault {
            refusal,
            offset: self.offset,
        }
    }

    // The next record; none at the end of a good file; else the file's first fault, and the reader stays where it is.
    pub fn next(&mut self) -> Result<Option<Record<'a>>, Fault>
        ensures { (f : Form) (es : List Entry) → Read f es self.old → Next f es self.old result self.new }
    {
        if self.bytes.len() > LONGEST_FILE {
            return Err(Fault {
                refusal: Refusal::LongFile,
                offset: LONGEST_FILE,
            });
        }
        let offset = self.offset;
        let [byte, rest @ ..] = &self.bytes[offset..] else {
            return if self.stage.is_complete() {
                Ok(None)
            } else {
                Err(self.fault(Refusal::CutShort))
            };
        };
        let kind = kind_at(*byte, offset)?;
        if kind.section() != self.stage.due() {
            return Err(self.fault(Refusal::OutOfPlace));
        }
        let len = kind.body_len();
        if rest.len() < len {
            return Err(self.fault(Refusal::CutShort));
        }
        let body = &rest[..len];
        let entry = decode_body(kind, body);
        self.stage = self.stage.next(entry);
        self.offset = offset + 1 + len;
        Ok(Some(Record {
            entry,
            body,
            offset,
        }))
    }
}
