ghost use Rattle.std.specs.Prelude.{◌≡◌, ◌≤◌, length, drop, None};
ghost use Rattle.plan.specs.Routings.{Routes};
ghost use Rattle.plan.specs.Sendings.{AsLong};
ghost use Rattle.plan.specs.Standing.{Standing};
ghost use Rattle.plan.specs.Tables.{Ready, state_of};

use super::calls::Routed;
use super::pick::source;
use super::table::Table;
use costs::Cost;
use networks::Network;

impl Table {
    // Sends along one cheapest route, if some rest is left and a place in want can be reached.
    pub(crate) fn route<N: Network>(
        &mut self,
        net: &N,
        work: &mut [<N::Cost as Cost>::Row],
    ) -> Routed
        requires { Ready N.Cost.Cost.kind (N.Network.means net.now) self.old (length work.old) }
        ensures long { AsLong self.old self.new }
        ensures past { drop (N.Network.means net.now).places work.new ≡ drop (N.Network.means net.now).places work.old }
        ensures routed { Standing N.Cost.Cost.kind (N.Network.means net.now) (state_of self.old) →
            Routes N.Cost.Cost.kind (N.Network.means net.now) (state_of self.old) result (state_of self.new) }
    {
        let Some(from) = source(self.rests.as_slice()) else {
            return Routed::Settled;
        };
        let Some(to) = self.nearest(net, work, from) else {
            return Routed::Blocked { at: from };
        };
        let amount = self.dispatch(net, from, to);
        Routed::Sent { from, to, amount }
    }
}
