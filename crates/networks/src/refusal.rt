ghost use Rattle.std.specs.Prelude.{◌≡◌, Some};
ghost use Rattle.networks.specs.Refusals.{number_of, refusal_words, way_of};

use std::error::Error;
use std::fmt;

// Why something is refused: the whole list.
#[derive(Clone, Copy, PartialEq, Eq, Debug)]
pub enum Refusal {
    BadPlaces,
    ManyWays,
    NoEnd(usize),
    SameEnds(usize),
    LargeLimit(usize),
    HeavyCost(usize),
    LosingRing,
    NoPlace,
    SamePlace,
    BadAmount,
    BadBudget,
    ShortTable,
    NoWay,
    CutShort,
    UnknownKind,
    OutOfPlace,
    LongFile,
    NotOpen,
    AlreadyOpen,
    RestBound,
    FullList,
}

impl Refusal {
    // A question, and no `From`: there is no way back from a number to a refusal.
    pub fn number(self) -> u8
        ensures { result ≡ number_of self }
    {
        match self {
            Refusal::BadPlaces => 1,
            Refusal::ManyWays => 2,
            Refusal::NoEnd(_) => 3,
            Refusal::SameEnds(_) => 4,
            Refusal::LargeLimit(_) => 5,
            Refusal::HeavyCost(_) => 6,
            Refusal::LosingRing => 7,
            Refusal::NoPlace => 8,
            Refusal::SamePlace => 9,
            Refusal::BadAmount => 10,
            Refusal::BadBudget => 11,
            Refusal::ShortTable => 12,
            Refusal::NoWay => 13,
            Refusal::CutShort => 14,
            Refusal::UnknownKind => 15,
            Refusal::OutOfPlace => 16,
            Refusal::LongFile => 17,
            Refusal::NotOpen => 30,
            Refusal::AlreadyOpen => 31,
            Refusal::RestBound => 32,
            Refusal::FullList => 33,
        }
    }

    // The way that the refusal is about, if it is about one.
    pub fn way(self) -> Option<usize>
        ensures { result ≡ way_of self }
    {
        match self {
            Refusal::NoEnd(k)
            | Refusal::SameEnds(k)
            | Refusal::LargeLimit(k)
            | Refusal::HeavyCost(k) => Some(k),
            _ => None,
        }
    }
}

impl fmt::Display for Refusal {
    ghost output = { λ r. Some (refusal_words r) };

    fn fmt<W: fmt::Write>(&self, f: &mut fmt::Formatter<W>) -> fmt::Result {
        write!(f, "refused {}", self.number())
    }
}

impl Error for Refusal {}
