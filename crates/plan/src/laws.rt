// What holds of every plan over every network. The contracts say it; the number that is answered says nothing, and stays for those who call.
ghost use Rattle.plan.specs.Determined.{Determined};
ghost use Rattle.plan.specs.Law.{Law};

use networks::Network;

// What holds after every list of calls.
pub fn law_stands<N: Network>(net: &N) -> u8
    ensures { Law N.Cost.Cost.kind (N.Network.means net.now) }
{
    0
}

// The rules of the calls can be kept, and determine each answer up to the route.
pub fn determined_stands<N: Network>(net: &N) -> u8
    ensures { Determined N.Cost.Cost.kind (N.Network.means net.now) }
{
    0
}
