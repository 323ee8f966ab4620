ghost use Rattle.std.specs.Prelude.{◌≡◌};

use super::step::Step;

// What a search noted at a place (its predecessor): nothing yet, that it starts there, or by which step it came.
#[derive(Clone, Copy)]
pub(crate) enum Note {
    Unseen,
    Start,
    Via(Step),
}

impl Note {
    ghost use Rattle.plan.specs.Entries.{is_seen};

    // Whether the search has come to the place.
    pub(crate) fn is_seen(self) -> bool
        ensures { result ≡ is_seen self }
    {
        !matches!(self, Note::Unseen)
    }
}
