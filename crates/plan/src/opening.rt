ghost use Rattle.std.specs.Prelude.{◌≡◌, [], length, drop, IfOk};
ghost use Rattle.plan.specs.declared.calls.Call.TheVariants.{Open};
ghost use Rattle.plan.specs.Plans.{Runs, Called, CalledLawfully, IfRefused, IfRefusedEarly, opening, plan_state};

use super::checks::check_net;
use super::planner::Plan;
use super::table::Table;
use costs::Cost;
use networks::{Network, Refusal};
use std::alloc::{AllocError, Global};

impl<N: Network + Drop> Plan<N> {
    // A new plan over the network. All its tables are made now.
    pub fn new(heap: Global, net: N) -> Result<Plan<N>, AllocError>
        ensures { IfOk result (λ p. (p.net ≡ net) × Runs N.Cost.Cost.kind (N.Network.means net) [] p) }
    {
        let table = Table::new(heap, net.places().min(1024), net.ways().min(3000))?;
        Ok(Plan {
            net,
            table,
            opened: false,
        })
    }

    // Opens the plan: all loads, rests and the count are zero.
    pub fn open(&mut self, work: &mut [<N::Cost as Cost>::Row]) -> Result<(), Refusal>
        ensures net { self.new.net ≡ self.old.net }
        ensures past { drop (N.Network.means self.old.net).places work.new ≡ drop (N.Network.means self.old.net).places work.old }
        ensures refused { IfRefused result (plan_state self.new ≡ plan_state self.old) }
        ensures untouched { IfRefusedEarly result ((self.new ≡ self.old) × (work.new ≡ work.old)) }
        ensures run { Called N.Cost.Cost.kind (N.Network.means self.old.net) self.old Open (length work.old) (opening result) self.new }
        ensures law { CalledLawfully N.Cost.Cost.kind (N.Network.means self.old.net) self.old Open (length work.old) (opening result) self.new }
    {
        if self.opened {
            return Err(Refusal::AlreadyOpen);
        }
        check_net(&self.net)?;
        let places = self.net.places();
        if work.len() < places {
            return Err(Refusal::ShortTable);
        }
        if !self.table.is_for(places, self.net.ways()) {
            return Err(Refusal::ShortTable);
        }
        self.table.clear();
        if self.table.has_losing_ring(&self.net, work) {
            return Err(Refusal::LosingRing);
        }
        self.opened = true;
        Ok(())
    }
}
