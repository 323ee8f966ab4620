ghost use Rattle.std.specs.Prelude.{◌≡◌};
ghost use Rattle.jobs.specs.Kinds.{section_of};

use super::kind::Kind;

// The sections of a file. A job has a heading, a listing of its ways and then calls; a grid has sizes alone.
#[derive(Clone, Copy, PartialEq, Eq, Debug)]
pub enum Section {
    Heading,
    Listing,
    Calls,
    Sizes,
}

impl Kind {
    // The section that records of the kind stand in.
    pub fn section(self) -> Section
        ensures { result ≡ section_of self }
    {
        match self {
            Kind::Head => Section::Heading,
            Kind::Way => Section::Listing,
            Kind::Book | Kind::Route | Kind::Settle | Kind::Total | Kind::Prices => Section::Calls,
            Kind::Group | Kind::Last => Section::Sizes,
        }
    }
}
