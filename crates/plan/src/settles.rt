ghost use Rattle.std.specs.Prelude.{◌≡◌, length, drop};
ghost use Rattle.plan.specs.declared.calls.Call.TheVariants.{Settle};
ghost use Rattle.plan.specs.Plans.{Called, CalledLawfully, IfRefused, settling};

use super::calls::Outcome;
use super::planner::Plan;
use costs::Cost;
use networks::{Network, Refusal};

impl<N: Network> Plan<N> {
    // Sends along cheapest routes, one after the other and at most `budget` of them, until nothing is left or nothing can be sent.
    pub fn settle(
        &mut self,
        work: &mut [<N::Cost as Cost>::Row],
        budget: u32,
    ) -> Result<Outcome, Refusal>
        ensures net { self.new.net ≡ self.old.net }
        ensures past { drop (N.Network.means self.old.net).places work.new ≡ drop (N.Network.means self.old.net).places work.old }
        ensures refused { IfRefused result ((self.new ≡ self.old) × (work.new ≡ work.old)) }
        ensures run { Called N.Cost.Cost.kind (N.Network.means self.old.net) self.old (Settle budget) (length work.old) (settling result) self.new }
        ensures law { CalledLawfully N.Cost.Cost.kind (N.Network.means self.old.net) self.old (Settle budget) (length work.old) (settling result) self.new }
    {
        if !self.usable() {
            return Err(Refusal::NotOpen);
        }
        if budget == 0 || budget > 1_000_000 {
            return Err(Refusal::BadBudget);
        }
        if work.len() < self.net.places() {
            return Err(Refusal::ShortTable);
        }
        Ok(self.table.settle(&self.net, work, budget))
    }
}
