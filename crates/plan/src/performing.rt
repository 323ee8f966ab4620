ghost use Rattle.std.specs.Prelude.{◌≡◌, length, drop};
ghost use Rattle.plan.specs.Plans.{CalledLawfully};

use super::calls::{Answer, Call};
use super::planner::Plan;
use costs::Cost;
use networks::Network;

impl<N: Network + Drop> Plan<N> {
    // Makes one call, whichever it is.
    pub fn perform(&mut self, call: Call, work: &mut [<N::Cost as Cost>::Row]) -> Answer
        ensures net { self.new.net ≡ self.old.net }
        ensures past { drop (N.Network.means self.old.net).places work.new ≡ drop (N.Network.means self.old.net).places work.old }
        ensures law { CalledLawfully N.Cost.Cost.kind (N.Network.means self.old.net) self.old call (length work.old) result self.new }
    {
        match call {
            Call::Open => self
                .open(work)
                .map_or_else(Answer::Refused, |()| Answer::Opened),
            Call::Book { from, to, amount } => {
                self.book(from, to, amount)
                    .map_or_else(Answer::Refused, |()| Answer::Booked)
            }
            Call::Route => self.route(work).map_or_else(Answer::Refused, Answer::from),
            Call::Settle { budget } => {
                self.settle(work, budget)
                    .map_or_else(Answer::Refused, Answer::from)
            }
        }
    }
}
