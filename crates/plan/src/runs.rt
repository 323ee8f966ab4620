ghost use Rattle.std.specs.Prelude.{◌≡◌, length, drop, IfOk, OnErr};
ghost use Rattle.plan.specs.Whole.{RanThrough};

use super::calls::{Answer, Call};
use super::planner::Plan;
use costs::Cost;
use networks::Network;
use std::alloc::{AllocError, Global};

// A plan after a list of calls, and what it answered to each.
#[derive(Drop)]
pub struct Run<N> {
    pub plan: Plan<N>,
    pub answers: Vec<Answer>,
}

// Makes the calls, one after the other, of a new plan over the network.
pub fn run_calls<N: Network + Drop>(
    heap: Global,
    net: N,
    calls: &[Call],
    work: &mut [<N::Cost as Cost>::Row],
) -> Result<Run<N>, AllocError>
    ensures past { drop (N.Network.means net).places work.new ≡ drop (N.Network.means net).places work.old }
    ensures refused { OnErr result (work.new ≡ work.old) }
    ensures ran { IfOk result (RanThrough N.Cost.Cost.kind (N.Network.means net) net calls.now (length work.old)) }
{
    let mut plan = Plan::new(heap, net)?;
    let mut answers = Vec::with_capacity(heap, calls.len())?;
    for call in calls {
        answers.push_reserved(plan.perform(*call, work));
    }
    Ok(Run { plan, answers })
}
