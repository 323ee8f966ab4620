ghost use Rattle.std.specs.Prelude.{◌≡◌, MatchResult};
ghost use Rattle.plan.specs.Checks.{fault_of_way, fault_of_ways, net_fault};

use costs::Cost;
use networks::{Ends, Network, Refusal};

// Looks for a fault of way `k` of a network with so many places.
fn check_way<C: Cost>(places: usize, k: usize, ends: Ends, cost: C) -> Result<(), Refusal>
    ensures { MatchResult result
        (λ _. fault_of_way C.Cost.kind places k (record { tail = ends.tail; head = ends.head; limit = ends.limit; cost = cost }) ≡ None)
        (λ fault. fault_of_way C.Cost.kind places k (record { tail = ends.tail; head = ends.head; limit = ends.limit; cost = cost }) ≡ Some fault) }
{
    if ends.tail >= places || ends.head >= places {
        return Err(Refusal::NoEnd(k));
    }
    if ends.tail == ends.head {
        return Err(Refusal::SameEnds(k));
    }
    if ends.limit > 1_000_000 {
        return Err(Refusal::LargeLimit(k));
    }
    if cost.weight() > 1_000_000 {
        return Err(Refusal::HeavyCost(k));
    }
    Ok(())
}

// Looks for the first fault of the ways, the lowest way first.
fn check_ways<N: Network>(net: &N) -> Result<(), Refusal>
    ensures { MatchResult result (λ _. fault_of_ways N.Cost.Cost.kind (N.Network.means net.now).places 0 (N.Network.means net.now).ways ≡ None)
        (λ fault. fault_of_ways N.Cost.Cost.kind (N.Network.means net.now).places 0 (N.Network.means net.now).ways ≡ Some fault) }
{
    let places = net.places();
    // A network answers about a way by its number, and is no slice to go over.
    for k in 0..net.ways() {
        let Some(ends) = net.way(k) else {
            unreachable()
        };
        let Some(cost) = net.cost(k) else {
            unreachable()
        };
        check_way(places, k, ends, cost)?;
    }
    Ok(())
}

// Looks for the first fault of a network.
pub(crate) fn check_net<N: Network>(net: &N) -> Result<(), Refusal>
    ensures { MatchResult result (λ _. net_fault N.Cost.Cost.kind (N.Network.means net.now) ≡ None)
        (λ fault. net_fault N.Cost.Cost.kind (N.Network.means net.now) ≡ Some fault) }
{
    let places = net.places();
    if places == 0 || places > 1024 {
        return Err(Refusal::BadPlaces);
    }
    if net.ways() > 3000 {
        return Err(Refusal::ManyWays);
    }
    check_ways(net)
}
