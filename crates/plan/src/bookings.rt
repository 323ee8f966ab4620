ghost use Rattle.std.specs.Prelude.{◌≡◌, ℕ};
ghost use Rattle.plan.specs.declared.calls.Call.TheVariants.{Book};
ghost use Rattle.plan.specs.Plans.{Called, CalledLawfully, IfRefused, booking};

use super::planner::Plan;
use networks::{Network, Refusal};

impl<N: Network> Plan<N> {
    // Books an amount from one place to another.
    pub fn book(&mut self, from: usize, to: usize, amount: u32) -> Result<(), Refusal>
        ensures net { self.new.net ≡ self.old.net }
        ensures refused { IfRefused result (self.new ≡ self.old) }
        ensures run { (work : ℕ) → Called N.Cost.Cost.kind (N.Network.means self.old.net) self.old (Book from to amount) work (booking result) self.new }
        ensures law { (work : ℕ) → CalledLawfully N.Cost.Cost.kind (N.Network.means self.old.net) self.old (Book from to amount) work (booking result) self.new }
    {
        if !self.opened {
            return Err(Refusal::NotOpen);
        }
        self.table.book(from, to, amount)
    }
}
