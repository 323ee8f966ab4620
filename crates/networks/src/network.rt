ghost use Rattle.std.specs.Prelude.{◌≡◌, length};
ghost use Rattle.std.specs.List.{slice_get};
ghost use Rattle.networks.specs.Net.{Net, ends_of, cost_of};

use super::ends::Ends;
use costs::Cost;

// A network, by what it means: every answer comes from that, and no question changes it.
pub trait Network {
    // the kind of cost that the ways carry
    type Cost: Cost;

    ghost means: { Self → Net Self.Cost };

    // How many places.
    fn places(&self) -> usize
        ensures { result ≡ (means self.now).places };

    // How many ways.
    fn ways(&self) -> usize
        ensures { result ≡ length (means self.now).ways };

    // Tail, head and limit of way `k`, or none if that is no way.
    fn way(&self, k: usize) -> Option<Ends>
        ensures { result ≡ ends_of (slice_get (means self.now).ways k) };

    // Cost of way `k`, or none if that is no way.
    fn cost(&self, k: usize) -> Option<Self::Cost>
        ensures { result ≡ cost_of (slice_get (means self.now).ways k) };
}
