ghost use Rattle.std.specs.Prelude.{◌≡◌, [], ◌∷◌, reverse, length};
ghost use Rattle.plan.specs.Rules.{along};
ghost use Rattle.plan.specs.Trails.{Bears};

use super::step::Step;

// Sends the amount along one step: more on a way ahead, less on a way back. A step that cannot bear it changes the load as far as it can be changed.
fn send_step(loads: &mut [u32], step: Step, amount: u32)
    ensures long { length loads.new ≡ length loads.old }
    ensures sent { Bears amount (step ∷ []) loads.old → loads.new ≡ along amount (step ∷ []) loads.old }
{
    // Of a write through `get_mut` of a slice a proof knows nothing.
    let k = step.way();
    if k < loads.len() {
        loads[k] = match step {
            Step::Ahead(_) => loads[k].saturating_add(amount),
            Step::Back(_) => loads[k].saturating_sub(amount),
        };
    }
}

// Sends the amount along a path, the last step of which begins the route.
pub(crate) fn send(loads: &mut [u32], path: &[Step], amount: u32)
    ensures long { length loads.new ≡ length loads.old }
    ensures sent { Bears amount (reverse path.now) loads.old → loads.new ≡ along amount (reverse path.now) loads.old }
{
    for &step in path.iter().rev() {
        send_step(loads, step, amount);
    }
}
