ghost use Rattle.std.specs.Prelude.{◌≡◌, length, drop, MatchBool};
ghost use Rattle.plan.specs.declared.calls.Call.TheVariants.{Route};
ghost use Rattle.plan.specs.Plans.{Called, CalledLawfully, Usable, NeverOpened, IfRefused, routing};

use super::calls::Routed;
use super::checks::check_net;
use super::planner::Plan;
use costs::Cost;
use networks::{Network, Refusal};

impl<N: Network> Plan<N> {
    // Whether the plan is open. The network passed the checks then, and is asked again: a type that said so would want `N: Network` of all who name a plan.
    // Each call asks this first, and then its own numbers in the ruled order: so the guards of the calls share no more than this.
    // What a call says of the entries past the last place, and of the network, is about that call: no type could hold it.
    pub(crate) fn usable(&self) -> bool
        ensures { MatchBool result (Usable N.Cost.Cost.kind (N.Network.means self.now.net) self.now)
            (NeverOpened N.Cost.Cost.kind (N.Network.means self.now.net) self.now) }
    {
        if !self.opened {
            return false;
        }
        if check_net(&self.net).is_err() {
            return false;
        }
        self.table.is_for(self.net.places(), self.net.ways())
    }

    // Sends along one cheapest route.
    pub fn route(&mut self, work: &mut [<N::Cost as Cost>::Row]) -> Result<Routed, Refusal>
        ensures net { self.new.net ≡ self.old.net }
        ensures past { drop (N.Network.means self.old.net).places work.new ≡ drop (N.Network.means self.old.net).places work.old }
        ensures refused { IfRefused result ((self.new ≡ self.old) × (work.new ≡ work.old)) }
        ensures run { Called N.Cost.Cost.kind (N.Network.means self.old.net) self.old Route (length work.old) (routing result) self.new }
        ensures law { CalledLawfully N.Cost.Cost.kind (N.Network.means self.old.net) self.old Route (length work.old) (routing result) self.new }
    {
        if !self.usable() {
            return Err(Refusal::NotOpen);
        }
        if work.len() < self.net.places() {
            return Err(Refusal::ShortTable);
        }
        Ok(self.table.route(&self.net, work))
    }
}
