ghost use Rattle.std.specs.Prelude.{◌≡◌, drop};
ghost use Rattle.plan.specs.Plans.{OfRun, IfRefused};
ghost use Rattle.plan.specs.Questions.{Reaches};

use super::loaded::Loaded;
use super::planner::Plan;
use costs::Cost;
use networks::{Network, Refusal};

impl<N: Network> Plan<N> {
    // Marks the reach of `place` with 1, and each other place with 0.
    pub fn reach(&self, place: usize, table: &mut [u8]) -> Result<(), Refusal>
        ensures past { drop (N.Network.means self.now.net).places table.new ≡ drop (N.Network.means self.now.net).places table.old }
        ensures refused { IfRefused result (table.new ≡ table.old) }
        ensures reaches { OfRun N.Cost.Cost.kind (N.Network.means self.now.net) self.now
            (λ s. Reaches N.Cost.Cost.kind (N.Network.means self.now.net) s place table.old result table.new) }
    {
        if !self.usable() {
            return Err(Refusal::NotOpen);
        }
        let places = self.net.places();
        if place >= places {
            return Err(Refusal::NoPlace);
        }
        if table.len() < places {
            return Err(Refusal::ShortTable);
        }
        let loaded = Loaded {
            net: &self.net,
            loads: self.table.loads.as_slice(),
        };
        loaded.mark_reach(table, place);
        Ok(())
    }
}
