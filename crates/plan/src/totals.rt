ghost use Rattle.std.specs.Prelude.{◌≡◌, ◌<◌, ◌≤◌, pos, vec_len, MatchOption, slice_index, slice_index_or};
ghost use Rattle.plan.specs.Loads.{costs};
ghost use Rattle.plan.specs.Standing.{Standing};
ghost use Rattle.plan.specs.Tables.{state_of};

use super::multiples::multiple;
use super::table::Table;
use costs::Cost;
use networks::Network;

impl Table {
    // The load of a way, or none if there is no such way.
    pub(crate) fn load(&self, way: usize) -> Option<u32>
        ensures { MatchOption result (vec_len self.now.loads ≤ way)
            (λ n. (way < vec_len self.now.loads) × (n ≡ slice_index self.now.loads.items way)) }
    {
        self.loads.get(way).copied()
    }

    // The rest of a place, or none if there is no such place.
    pub(crate) fn rest(&self, place: usize) -> Option<i64>
        ensures { MatchOption result (vec_len self.now.rests ≤ place)
            (λ z. (place < vec_len self.now.rests) × (z ≡ slice_index_or self.now.rests.items place (pos 0))) }
    {
        self.rests.get(place).copied()
    }

    // The sum of each load times the cost of its way. It is always made for an open plan, because none of its loads is above a limit.
    pub(crate) fn total<N: Network>(&self, net: &N) -> Option<N::Cost>
        ensures { MatchOption result (Standing N.Cost.Cost.kind (N.Network.means net.now) (state_of self.now) → ⊥)
            (λ c. N.Cost.Cost.kind.value c ≡ costs N.Cost.Cost.kind (N.Network.means net.now).ways self.now.loads.items) }
    {
        let mut total = N::Cost::zero();
        // A network answers about a way by its number, and is no slice to go over.
        for k in 0..net.ways() {
            let cost = net.cost(k)?;
            let part = multiple(cost, self.load(k)?)?;
            total = total.plus(part)?;
        }
        Some(total)
    }
}
