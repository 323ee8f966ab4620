ghost use Rattle.std.specs.Prelude.{◌≡◌, ◌<◌, ◌≤◌, length, drop, IfSome, None, vec_len};
ghost use Rattle.plan.specs.Entries.{tables};
ghost use Rattle.plan.specs.Nearest.{Nearest};
ghost use Rattle.plan.specs.Tables.{Ready, Same, state_of};

use super::loaded::Loaded;
use super::pick::cheapest;
use super::starts::Starts;
use super::table::Table;
use costs::Cost;
use networks::Network;

impl Table {
    // The place in want to which the next route from `from` leads. None if it reaches no such place.
    pub(crate) fn nearest<N: Network>(
        &mut self,
        net: &N,
        work: &mut [<N::Cost as Cost>::Row],
        from: usize,
    ) -> Option<usize>
        requires ready { Ready N.Cost.Cost.kind (N.Network.means net.now) self.old (length work.old) }
        requires place { from < (N.Network.means net.now).places }
        ensures same { Same self.old self.new }
        ensures past { drop (N.Network.means net.now).places work.new ≡ drop (N.Network.means net.now).places work.old }
        ensures place { IfSome result (λ v. v < (N.Network.means net.now).places) }
        ensures nearest { Nearest N.Cost.Cost.kind (N.Network.means net.now) (state_of self.old) from
            (tables work.new self.new.notes.items) result }
    {
        let loaded = Loaded {
            net,
            loads: self.loads.as_slice(),
        };
        loaded.search(work, self.notes.as_mut_slice(), Starts::At(from));
        cheapest::<N::Cost>(self.rests.as_slice(), work, self.notes.as_slice())
    }
}
