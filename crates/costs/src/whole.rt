ghost use Rattle.std.specs.Prelude.{◌≤◌, unsigned_abs};
ghost use Rattle.costs.specs.Kind.{heaviest};

mod cost;

// A whole number of at most 4 * 10^18 either way.
#[derive(Clone, Copy, PartialEq, Eq, PartialOrd, Ord, Hash, Debug)]
pub struct Whole {
    amount: i64,
    ghost small: { unsigned_abs amount ≤ heaviest },
}
