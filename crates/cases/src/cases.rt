ghost use Rattle.std.specs.Prelude.{◌≡◌, length};
ghost use Rattle.std.specs.Iterator.{at_most};
ghost use Rattle.cases.specs.Cases.{GivesFirst};

use super::case::{Case, first_case};

// The cases of an input, one after the other. After an error there are no more.
#[derive(Clone, Copy, PartialEq, Eq, Debug)]
pub struct Cases<'a> {
    pub left: &'a [u8],
}

impl<'a> Cases<'a> {
    pub fn new(input: &'a [u8]) -> Self
        ensures { result.left.now ≡ input.now }
    {
        Cases { left: input }
    }
}

impl<'a> Iterator for Cases<'a> {
    type Item = anyhow::Result<Case<'a>>;

    ghost next_gives = { GivesFirst };

    ghost remaining = { λ s. at_most (length s.left.now) };

    fn next(&mut self) -> Option<anyhow::Result<Case<'a>>> {
        if self.left.is_empty() {
            return None;
        }
        let case = first_case(self.left);
        self.left = match &case {
            Ok(case) => case.rest,
            Err(_) => &[],
        };
        Some(case)
    }
}
