ghost use Rattle.std.specs.Prelude.{◌≡◌, ◌<◌, MatchOption, unsigned_abs};
ghost use Rattle.costs.specs.Kind.{heaviest};
ghost use Rattle.costs.specs.Whole.{whole_kind};

use crate::cost::{Cost, HEAVIEST, LIGHT};
use crate::whole::Whole;
use std::cmp::Ordering;

// A constant can call no `From`.
const BOUND: i64 = HEAVIEST as i64;

impl Whole {
    // The cost of that number, or none outside the bounds: the test of its own type, whose error would have nothing to tell.
    pub fn new(amount: i64) -> Option<Whole>
        ensures { MatchOption result (heaviest < unsigned_abs amount) (λ x. x.amount ≡ amount) }
    {
        if amount < -BOUND || amount > BOUND {
            return None;
        }
        Some(Whole { amount })
    }
}

impl Cost for Whole {
    ghost kind = { whole_kind };

    type Row = i64;

    fn zero() -> Whole {
        Whole { amount: 0 }
    }

    fn plus(self, other: Whole) -> Option<Whole> {
        if self.weight() + other.weight() > HEAVIEST {
            return None;
        }
        Some(Whole {
            amount: self.amount + other.amount,
        })
    }

    fn opposite(self) -> Whole {
        Whole {
            amount: -self.amount,
        }
    }

    fn compare(self, other: Whole) -> Ordering {
        self.cmp(&other)
    }

    fn times(self, n: u32) -> Option<Whole> {
        if n > LIGHT || self.weight() > u64::from(LIGHT) {
            return None;
        }
        Some(Whole {
            // With `i64::from` the proof of the product does not close.
            amount: n as i64 * self.amount,
        })
    }

    fn weight(self) -> u64 {
        self.amount.unsigned_abs()
    }

    fn row(self) -> i64 {
        self.amount
    }

    // The number itself, or the nearer bound if it lies outside.
    fn read(row: i64) -> Whole {
        Whole {
            amount: row.clamp(-BOUND, BOUND),
        }
    }
}
