ghost use Rattle.costs.specs.Pair.{pair_kind};

use crate::cost::{Cost, HEAVIEST};
use std::cmp::Ordering;

// Two costs, compared by the first and then by the second.
#[derive(Clone, Copy, PartialEq, Eq, PartialOrd, Ord, Hash, Debug)]
pub struct Pair<A, B> {
    pub first: A,
    pub second: B,
}

impl<A, B> Cost for Pair<A, B>
where
    A: Cost,
    B: Cost,
{
    ghost kind = { pair_kind A.Cost.kind B.Cost.kind };

    type Row = (A::Row, B::Row);

    fn zero() -> Pair<A, B> {
        Pair {
            first: A::zero(),
            second: B::zero(),
        }
    }

    // The parts may fit where the weights together do not.
    fn plus(self, other: Pair<A, B>) -> Option<Pair<A, B>> {
        if self.weight() + other.weight() > HEAVIEST {
            return None;
        }
        let first = self.first.plus(other.first)?;
        let second = self.second.plus(other.second)?;
        Some(Pair { first, second })
    }

    fn opposite(self) -> Pair<A, B> {
        Pair {
            first: self.first.opposite(),
            second: self.second.opposite(),
        }
    }

    // Each part is asked itself: the derived order would want `Ord` of them, which a kind of cost need not have.
    fn compare(self, other: Pair<A, B>) -> Ordering {
        self.first
            .compare(other.first)
            .then(self.second.compare(other.second))
    }

    fn times(self, n: u32) -> Option<Pair<A, B>> {
        let first = self.first.times(n)?;
        let second = self.second.times(n)?;
        Some(Pair { first, second })
    }

    fn weight(self) -> u64 {
        self.first.weight().max(self.second.weight())
    }

    fn row(self) -> (A::Row, B::Row) {
        (self.first.row(), self.second.row())
    }

    fn read(row: (A::Row, B::Row)) -> Pair<A, B> {
        Pair {
            first: A::read(row.0),
            second: B::read(row.1),
        }
    }
}
