ghost use Rattle.std.specs.Prelude.{◌≡◌, ℕ, Bool, List, refl};
ghost use Rattle.networks.specs.Net.{Way};
ghost use Rattle.networks.specs.Changes.{changed, shut_limit, shut_way, redraw_cost, redraw_way};

use costs::{Cost, Pair, Whole};

// What a layer makes of a way with cost `C` below, according to whether the way is listed.
pub trait Change<C: Cost> {
    // the kind of cost that the changed ways carry
    type Cost: Cost;

    ghost limits: { Bool → ℕ → ℕ };

    ghost costs: { Bool → C → Self.Cost };

    // what becomes of way `k` under a list
    ghost changes: { List ℕ → ℕ → Way C → Way Self.Cost };

    fn limit(listed: bool, limit: u32) -> u32
        ensures { result ≡ limits listed limit };

    fn cost(listed: bool, cost: C) -> Self::Cost
        ensures { result ≡ costs listed cost };

    // It changes nothing but the limit and the cost, and these by whether the way is listed.
    ghost by_limit_and_cost: { (ks : List ℕ) (k : ℕ) (w : Way C) → changes ks k w ≡ changed limits costs ks k w };
}

// A listed way has limit 0.
#[derive(Clone, Copy, PartialEq, Eq, Debug)]
pub struct Shutting;

impl<C: Cost> Change<C> for Shutting {
    type Cost = C;

    ghost limits = { shut_limit };

    ghost costs = { λ _ cost. cost };

    ghost changes = { shut_way };

    ghost by_limit_and_cost = { λ ks k w. refl };

    fn limit(listed: bool, limit: u32) -> u32 {
        if listed { 0 } else { limit }
    }

    fn cost(_listed: bool, cost: C) -> C {
        cost
    }
}

// The cost of a way is the pair of 1 or 0, listed or not, and the cost below.
#[derive(Clone, Copy, PartialEq, Eq, Debug)]
pub struct Redrawing;

impl<C: Cost> Change<C> for Redrawing {
    type Cost = Pair<Whole, C>;

    ghost limits = { λ _ limit. limit };

    ghost costs = { redraw_cost };

    ghost changes = { redraw_way };

    ghost by_limit_and_cost = { λ ks k w. refl };

    fn limit(_listed: bool, limit: u32) -> u32 {
        limit
    }

    fn cost(listed: bool, cost: C) -> Pair<Whole, C> {
        Pair {
            first: Whole::read(i64::from(listed)),
            second: cost,
        }
    }
}
