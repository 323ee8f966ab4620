ghost use Rattle.std.specs.Prelude.{◌≡◌, ◌≤◌, length, drop, None, MatchBool};
ghost use Rattle.plan.specs.Questions.{Priced};
ghost use Rattle.plan.specs.Steps.{Losing};
ghost use Rattle.plan.specs.Tables.{Ready, Same};

use super::loaded::Loaded;
use super::starts::Starts;
use super::table::Table;
use costs::Cost;
use networks::Network;

impl Table {
    // Writes the price of each place, unless some ring costs less than zero. True if none does.
    pub(crate) fn price_all<N: Network>(
        &mut self,
        net: &N,
        rows: &mut [<N::Cost as Cost>::Row],
    ) -> bool
        requires { Ready N.Cost.Cost.kind (N.Network.means net.now) self.old (length rows.old) }
        ensures same { Same self.old self.new }
        ensures past { drop (N.Network.means net.now).places rows.new ≡ drop (N.Network.means net.now).places rows.old }
        ensures priced { MatchBool result
            ((Losing N.Cost.Cost.kind (N.Network.means net.now) self.old.loads.items → ⊥)
            × Priced N.Cost.Cost.kind (N.Network.means net.now) self.old.loads.items rows.old rows.new)
            (Losing N.Cost.Cost.kind (N.Network.means net.now) self.old.loads.items) }
    {
        let loaded = Loaded {
            net,
            loads: self.loads.as_slice(),
        };
        loaded.search(rows, self.notes.as_mut_slice(), Starts::Everywhere)
    }

    // Whether some ring costs less than zero.
    pub(crate) fn has_losing_ring<N: Network>(
        &mut self,
        net: &N,
        work: &mut [<N::Cost as Cost>::Row],
    ) -> bool
        requires { Ready N.Cost.Cost.kind (N.Network.means net.now) self.old (length work.old) }
        ensures same { Same self.old self.new }
        ensures past { drop (N.Network.means net.now).places work.new ≡ drop (N.Network.means net.now).places work.old }
        ensures decides { MatchBool result (Losing N.Cost.Cost.kind (N.Network.means net.now) self.old.loads.items)
            (Losing N.Cost.Cost.kind (N.Network.means net.now) self.old.loads.items → ⊥) }
    {
        !self.price_all(net, work)
    }
}
