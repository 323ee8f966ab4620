ghost use Rattle.std.specs.Prelude.{◌≡◌, true, false, slice_index, MatchResult};
ghost use Rattle.plan.specs.Checks.{closed_fault};
ghost use Rattle.plan.specs.Plans.{OfRun, plan_state};
ghost use Rattle.plan.specs.Questions.{answered, load_fault, rest_fault, Totals};
ghost use Rattle.plan.specs.State.{rest as rest_of};

use super::planner::Plan;
use super::table::Table;
use networks::{Network, Refusal};

impl<N: Network> Plan<N> {
    // The table of a plan that is open.
    fn open_table(&self) -> Result<&Table, Refusal>
        ensures { MatchResult result (λ t. (self.now.opened ≡ true) × (t.now ≡ self.now.table)) (λ e. (self.now.opened ≡ false) × (e ≡ Refusal.NotOpen)) }
    {
        if !self.opened {
            return Err(Refusal::NotOpen);
        }
        Ok(&self.table)
    }

    // What the loads cost.
    pub fn total(&self) -> Result<N::Cost, Refusal>
        ensures { OfRun N.Cost.Cost.kind (N.Network.means self.now.net) self.now
            (λ s. Totals N.Cost.Cost.kind (N.Network.means self.now.net) s result) }
    {
        self.open_table()?.total(&self.net).ok_or(Refusal::NotOpen)
    }

    // The load of a way.
    pub fn load(&self, way: usize) -> Result<u32, Refusal>
        ensures { OfRun N.Cost.Cost.kind (N.Network.means self.now.net) self.now
            (λ s. result ≡ answered (load_fault (N.Network.means self.now.net) s way) (slice_index s.loads way)) }
    {
        self.open_table()?.load(way).ok_or(Refusal::NoWay)
    }

    // The rest of a place.
    pub fn rest(&self, place: usize) -> Result<i64, Refusal>
        ensures { OfRun N.Cost.Cost.kind (N.Network.means self.now.net) self.now
            (λ s. result ≡ answered (rest_fault (N.Network.means self.now.net) s place) (rest_of s place)) }
    {
        self.open_table()?.rest(place).ok_or(Refusal::NoPlace)
    }

    // How many routes were sent since the plan was opened.
    pub fn count(&self) -> Result<u32, Refusal>
        ensures { result ≡ answered (closed_fault (plan_state self.now)) (plan_state self.now).count }
    {
        Ok(self.open_table()?.count)
    }
}
