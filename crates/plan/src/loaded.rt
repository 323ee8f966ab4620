ghost use Rattle.std.specs.Prelude.{◌≡◌, length, None};
ghost use Rattle.plan.specs.Checks.{net_fault};

use costs::Cost;
use networks::Network;

// A network that passed the checks, and a load for each of its ways.
// What its methods write goes beside it, and they require how long that is: in a struct it would need a clause a reference, that this stays the same.
#[derive(Drop)]
pub(crate) struct Loaded<'a, N: Network> {
    pub(crate) net: &'a N,
    pub(crate) loads: &'a [u32],
    ghost fair: { net_fault N.Cost.Cost.kind (N.Network.means net.now) ≡ None },
    ghost long: { length loads.now ≡ length (N.Network.means net.now).ways },
}

impl<N: Network> Loaded<'_, N> {
    // How many ways the network has. One that passed the checks has few.
    pub(crate) fn ways(&self) -> u16
        ensures { result ≡ length (N.Network.means self.now.net.now).ways }
    {
        self.net.ways() as u16
    }
}
