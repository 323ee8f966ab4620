ghost use Rattle.std.specs.Prelude.{◌≡◌, MatchOption, ◌≢◌};
ghost use Rattle.jobs.specs.Kinds.{kind_byte, Decodes, body_length};

use networks::Refusal;

// The kinds of record, each told by the byte that a record begins with.
#[derive(Clone, Copy, PartialEq, Eq, Debug)]
pub enum Kind {
    Head,
    Way,
    Book,
    Route,
    Settle,
    Total,
    Prices,
    Group,
    Last,
}

impl TryFrom<u8> for Kind {
    type Error = Refusal;

    ghost try_from_gives = { Decodes };

    fn try_from(byte: u8) -> Result<Self, Refusal> {
        match byte {
            1 => Ok(Kind::Head),
            2 => Ok(Kind::Way),
            3 => Ok(Kind::Book),
            4 => Ok(Kind::Route),
            5 => Ok(Kind::Settle),
            6 => Ok(Kind::Total),
            7 => Ok(Kind::Prices),
            8 => Ok(Kind::Group),
            9 => Ok(Kind::Last),
            _ => Err(Refusal::UnknownKind),
        }
    }
}

impl From<Kind> for u8 {
    ghost from_gives = { λ kind byte. byte ≡ kind_byte kind };

    fn from(kind: Kind) -> u8 {
        match kind {
            Kind::Head => 1,
            Kind::Way => 2,
            Kind::Book => 3,
            Kind::Route => 4,
            Kind::Settle => 5,
            Kind::Total => 6,
            Kind::Prices => 7,
            Kind::Group => 8,
            Kind::Last => 9,
        }
    }
}

impl Kind {
    // The kind that a byte tells, if any.
    pub fn told_by(b: u8) -> Option<Kind>
        ensures { MatchOption result ((k : Kind) → kind_byte k ≢ b) (λ k. kind_byte k ≡ b) }
    {
        Kind::try_from(b).ok()
    }

    // How many bytes follow the kind byte.
    pub fn body_len(self) -> usize
        ensures { result ≡ body_length self }
    {
        match self {
            Kind::Head => 4,
            Kind::Way => 16,
            Kind::Book => 8,
            Kind::Route => 0,
            Kind::Settle => 4,
            Kind::Total => 0,
            Kind::Prices => 0,
            Kind::Group => 6,
            Kind::Last => 6,
        }
    }
}
