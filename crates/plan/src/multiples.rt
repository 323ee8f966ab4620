ghost use Rattle.std.specs.Prelude.{◌≡◌, ◌*◌, ◌<◌, ◌≤◌, MatchOption, IfSome};
ghost use Rattle.costs.specs.Group.{times};
ghost use Rattle.costs.specs.Kind.{heaviest, Multiplies};

use costs::{Cost, LIGHT};

// Zero with the cost added n times, made by doubling: each sum on the way is a cost too, and so none weighs more than its parts together.
fn doubled<C: Cost>(cost: C, n: u32) -> Option<C>
    ensures { MatchOption result (heaviest < n * C.Cost.kind.weighs cost)
        (λ s. (C.Cost.kind.value s ≡ times C.Cost.kind.group n (C.Cost.kind.value cost)) × (C.Cost.kind.weighs s ≤ n * C.Cost.kind.weighs cost)) }
{
    if n == 0 {
        return Some(C::zero());
    }
    let half = doubled(cost, n / 2)?;
    let even = half.plus(half)?;
    if n % 2 == 0 {
        return Some(even);
    }
    even.plus(cost)
}

// The n-fold sum of a light cost, which weighs at most n times as much.
pub(crate) fn multiple<C: Cost>(cost: C, n: u32) -> Option<C>
    ensures made { Multiplies C.Cost.kind n cost result }
    ensures light { IfSome result (λ s. C.Cost.kind.weighs s ≤ n * C.Cost.kind.weighs cost) }
{
    if n > LIGHT || cost.weight() > u64::from(LIGHT) {
        return None;
    }
    doubled(cost, n)
}
