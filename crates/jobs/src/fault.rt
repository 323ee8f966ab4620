ghost use Rattle.std.specs.Prelude.{Some};
ghost use Rattle.jobs.specs.Listing.{fault_words};

use networks::Refusal;
use std::error::Error;
use std::fmt;

// A refusal and the place in the file that it is about.
#[derive(Clone, Copy, PartialEq, Eq, Debug)]
pub struct Fault {
    pub refusal: Refusal,
    pub offset: usize,
}

impl fmt::Display for Fault {
    ghost output = { λ e. Some (fault_words e) };

    fn fmt<W: fmt::Write>(&self, f: &mut fmt::Formatter<W>) -> fmt::Result {
        write!(f, "file {} at {}", self.refusal.number(), self.offset)
    }
}

impl Error for Fault {}
