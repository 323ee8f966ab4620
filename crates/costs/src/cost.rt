ghost use Rattle.std.specs.Prelude.{◌≡◌};
ghost use Rattle.costs.specs.Kind.{Kind, Sums, Multiplies, Compares};

use std::cmp::Ordering;

// The greatest weight.
pub const HEAVIEST: u64 = 4_000_000_000_000_000_000;

// An n-fold sum is made up to this number, of costs up to this weight.
pub const LIGHT: u32 = 1_000_000;

// A kind of cost. `kind` says what each answer is. Order and rows are questions of the trait itself: a supertrait `Ord`, or `From` of rows, would ask more of whoever writes a kind.
pub trait Cost: Copy {
    ghost kind: { Kind Self Self.Row };

    type Row: Copy;

    fn zero() -> Self
        ensures { kind.value result ≡ kind.group.zero };

    fn plus(self, other: Self) -> Option<Self>
        ensures { Sums kind self other result };

    fn opposite(self) -> Self
        ensures { kind.value result ≡ kind.group.opp (kind.value self) };

    fn compare(self, other: Self) -> Ordering
        ensures { Compares kind self other result };

    fn times(self, n: u32) -> Option<Self>
        ensures { Multiplies kind n self result };

    fn weight(self) -> u64
        ensures { result ≡ kind.weighs self };

    fn row(self) -> Self::Row
        ensures { result ≡ kind.row_of self };

    fn read(row: Self::Row) -> Self
        ensures { result ≡ kind.reads row };
}
