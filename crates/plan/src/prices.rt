ghost use Rattle.std.specs.Prelude.{◌≡◌, drop};
ghost use Rattle.plan.specs.Plans.{Asked, IfRefused, OfRun, plan_state};
ghost use Rattle.plan.specs.Questions.{Prices};

use super::planner::Plan;
use costs::Cost;
use networks::{Network, Refusal};

impl<N: Network> Plan<N> {
    // Writes the price of each place into the table.
    pub fn prices(&mut self, table: &mut [<N::Cost as Cost>::Row]) -> Result<(), Refusal>
        ensures net { self.new.net ≡ self.old.net }
        ensures state { plan_state self.new ≡ plan_state self.old }
        ensures run { Asked N.Cost.Cost.kind (N.Network.means self.old.net) self.old self.new }
        ensures past { drop (N.Network.means self.old.net).places table.new ≡ drop (N.Network.means self.old.net).places table.old }
        ensures refused { IfRefused result ((self.new ≡ self.old) × (table.new ≡ table.old)) }
        ensures prices { OfRun N.Cost.Cost.kind (N.Network.means self.old.net) self.old
            (λ s. Prices N.Cost.Cost.kind (N.Network.means self.old.net) s table.old result table.new) }
    {
        if !self.usable() {
            return Err(Refusal::NotOpen);
        }
        if table.len() < self.net.places() {
            return Err(Refusal::ShortTable);
        }
        self.table.price_all(&self.net, table);
        Ok(())
    }
}
