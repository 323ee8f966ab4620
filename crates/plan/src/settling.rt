ghost use Rattle.std.specs.Prelude.{◌≡◌, ◌≤◌, length, drop, None};
ghost use Rattle.plan.specs.Routings.{Settles};
ghost use Rattle.plan.specs.Sendings.{AsLong};
ghost use Rattle.plan.specs.Standing.{Standing};
ghost use Rattle.plan.specs.Tables.{Ready, state_of};

use super::calls::{Ending, Outcome, Routed};
use super::pick::source;
use super::table::Table;
use costs::Cost;
use networks::Network;

impl Table {
    // Sends route after route, at most `budget` of them.
    pub(crate) fn settle<N: Network>(
        &mut self,
        net: &N,
        work: &mut [<N::Cost as Cost>::Row],
        budget: u32,
    ) -> Outcome
        requires { Ready N.Cost.Cost.kind (N.Network.means net.now) self.old (length work.old) }
        ensures long { AsLong self.old self.new }
        ensures past { drop (N.Network.means net.now).places work.new ≡ drop (N.Network.means net.now).places work.old }
        ensures settled { Standing N.Cost.Cost.kind (N.Network.means net.now) (state_of self.old) →
            Settles N.Cost.Cost.kind (N.Network.means net.now) budget (state_of self.old) result (state_of self.new) }
    {
        for routes in 0..budget {
            let ending = match self.route(net, work) {
                Routed::Settled => Ending::Settled,
                Routed::Blocked { at } => Ending::Blocked { at },
                Routed::Sent { .. } => continue,
            };
            return Outcome { routes, ending };
        }
        let ending = match source(self.rests.as_slice()) {
            Some(_) => Ending::Unfinished,
            None => Ending::Settled,
        };
        Outcome {
            routes: budget,
            ending,
        }
    }
}
