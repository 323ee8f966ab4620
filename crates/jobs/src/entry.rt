ghost use Rattle.std.specs.Prelude.{◌≡◌};
ghost use Rattle.jobs.specs.Entries.{kind_of};

use super::kind::Kind;

// What a record says: its kind and the numbers of its body.
#[derive(Clone, Copy, PartialEq, Eq, Debug)]
pub enum Entry {
    Head {
        places: u16,
        ways: u16,
    },
    Way {
        tail: u16,
        head: u16,
        limit: u32,
        redraws: i32,
        misfit: i32,
    },
    Book {
        from: u16,
        to: u16,
        amount: u32,
    },
    Route,
    Settle {
        budget: u32,
    },
    Total,
    Prices,
    Group {
        length: u16,
        count: u32,
    },
    Last {
        length: u16,
        count: u32,
    },
}

impl Entry {
    pub fn kind(self) -> Kind
        ensures { result ≡ kind_of self }
    {
        match self {
            Entry::Head { .. } => Kind::Head,
            Entry::Way { .. } => Kind::Way,
            Entry::Book { .. } => Kind::Book,
            Entry::Route => Kind::Route,
            Entry::Settle { .. } => Kind::Settle,
            Entry::Total => Kind::Total,
            Entry::Prices => Kind::Prices,
            Entry::Group { .. } => Kind::Group,
            Entry::Last { .. } => Kind::Last,
        }
    }
}
