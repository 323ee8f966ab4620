ghost use Rattle.std.specs.Prelude.{◌≡◌, pos, ◌+ℤ◌, ◌-ℤ◌, MatchOption};
ghost use Rattle.plan.specs.Checks.{beyond};
ghost use Rattle.plan.specs.Tables.{Books};

use super::table::Table;
use networks::Refusal;

// Whether a rest is out of bounds.
fn is_beyond(rest: i64) -> bool
    ensures { result ≡ beyond rest }
{
    rest < -1_000_000_000 || rest > 1_000_000_000
}

impl Table {
    // Adds the amount to the rest of `from`, and takes it from that of `to`.
    pub(crate) fn book(&mut self, from: usize, to: usize, amount: u32) -> Result<(), Refusal>
        ensures { Books self.old from to amount result self.new }
    {
        if from >= self.rests.len() || to >= self.rests.len() {
            return Err(Refusal::NoPlace);
        }
        if from == to {
            return Err(Refusal::SamePlace);
        }
        if amount == 0 || amount > 1_000_000 {
            return Err(Refusal::BadAmount);
        }
        let Some(more) = self.rests[from].checked_add(i64::from(amount)) else {
            return Err(Refusal::RestBound);
        };
        let Some(less) = self.rests[to].checked_sub(i64::from(amount)) else {
            return Err(Refusal::RestBound);
        };
        if is_beyond(more) || is_beyond(less) {
            return Err(Refusal::RestBound);
        }
        self.rests[from] = more;
        self.rests[to] = less;
        Ok(())
    }
}
