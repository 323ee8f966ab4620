ghost use Rattle.std.specs.Prelude.{◌≡◌};

// A step (a residual arc) along the way with that number: from its tail to its head, or back.
// The number has 16 bits, since a search fills a note, which can hold a step, for each place: a note of 24 bytes took more time than a search where few places are in reach.
#[derive(Clone, Copy)]
pub(crate) enum Step {
    Ahead(u16),
    Back(u16),
}

impl Step {
    ghost use Rattle.plan.specs.Sweeps.{way_of};

    // The way that the step goes along.
    pub(crate) fn way(self) -> usize
        ensures { result ≡ way_of self }
    {
        match self {
            Step::Ahead(k) | Step::Back(k) => usize::from(k),
        }
    }
}
