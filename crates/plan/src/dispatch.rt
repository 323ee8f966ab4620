ghost use Rattle.std.specs.Prelude.{◌≡◌, ◌+◌, ◌<◌, min, pos, ◌+ℤ◌, ◌-ℤ◌, neg_ℤ, ◌≤ℤ◌, ◌<ℤ◌, None, vec_len};
ghost use Rattle.plan.specs.Checks.{net_fault};
ghost use Rattle.plan.specs.Rules.{most_counted};
ghost use Rattle.plan.specs.Sendings.{Smaller, Asked, Moved, AsLong, Dispatched};
ghost use Rattle.plan.specs.Tables.{MadeFor, state_of};

use super::loaded::Loaded;
use super::sending::send;
use super::table::Table;
use costs::Cost;
use networks::Network;

// The smaller of what one place has and what another wants. It is cut to what a rest can be, and so fits.
fn smaller(have: i64, want: i64) -> u32
    ensures { pos 0 <ℤ have → have ≤ℤ pos 1000000000 → want <ℤ pos 0 → Smaller have want result }
{
    have.unsigned_abs()
        .min(want.unsigned_abs())
        .min(1_000_000_000) as u32
}

// One route more. The number stays at the greatest that is counted.
fn one_more(count: u32) -> u32
    ensures { result ≡ min (count + 1) most_counted }
{
    count.saturating_add(1).min(4_000_000_000)
}

// The rest with the amount more, or as near to it as can be held.
fn raised(rest: i64, amount: u32) -> i64
    ensures { rest ≤ℤ pos 1000000000 → result ≡ rest +ℤ pos amount }
{
    rest.saturating_add(i64::from(amount))
}

// The rest with the amount less, or as near to it as can be held.
fn lowered(rest: i64, amount: u32) -> i64
    ensures { neg_ℤ (pos 1000000000) ≤ℤ rest → result ≡ rest -ℤ pos amount }
{
    rest.saturating_sub(i64::from(amount))
}

impl Table {
    // The smaller of what `from` has and what `to` wants.
    fn asked(&self, from: usize, to: usize) -> u32
        requires within { (from < vec_len self.now.rests) × (to < vec_len self.now.rests) }
        ensures { Asked self.now.rests.items from to result }
    {
        smaller(self.rests[from], self.rests[to])
    }

    // The amount more at `to`, and less at `from`.
    fn move_rests(&mut self, to: usize, from: usize, amount: u32)
        requires within { (to < vec_len self.old.rests) × (from < vec_len self.old.rests) }
        ensures same { (self.new.loads ≡ self.old.loads) × ((self.new.count ≡ self.old.count) × (vec_len self.new.rests ≡ vec_len self.old.rests)) }
        ensures moved { Moved self.old.rests.items to from amount self.new.rests.items }
    {
        let more = raised(self.rests[to], amount);
        let less = lowered(self.rests[from], amount);
        self.rests[to] = more;
        self.rests[from] = less;
    }

    // Sends from `from` to `to` along the steps noted by a search, as much as they can bear and the rests ask for. That amount.
    pub(crate) fn dispatch<N: Network>(&mut self, net: &N, from: usize, to: usize) -> u32
        requires fair { net_fault N.Cost.Cost.kind (N.Network.means net.now) ≡ None }
        requires made { MadeFor (N.Network.means net.now) self.old }
        requires places { (from < (N.Network.means net.now).places) × (to < (N.Network.means net.now).places) }
        ensures long { AsLong self.old self.new }
        ensures sent { Dispatched N.Cost.Cost.kind (N.Network.means net.now) self.old from to result (state_of self.new) }
    {
        let asked = self.asked(from, to);
        let loaded = Loaded {
            net,
            loads: self.loads.as_slice(),
        };
        let Some(amount) = loaded.trace(self.notes.as_slice(), &mut self.path, to, asked) else {
            // Not in an open plan, as the contract says. An `Option` would only pass the question on to `route`, whose answer has no case for it either.
            return 0;
        };
        send(self.loads.as_mut_slice(), self.path.as_slice(), amount);
        self.move_rests(to, from, amount);
        self.count = one_more(self.count);
        amount
    }
}
