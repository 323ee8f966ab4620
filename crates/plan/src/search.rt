ghost use Rattle.std.specs.Prelude.{◌≡◌, ℕ, ◌<◌, ◌≤◌, length, drop};
ghost use Rattle.plan.specs.Entries.{front, tables};
ghost use Rattle.plan.specs.Searches.{Searched};
ghost use Rattle.plan.specs.Starts.{IsStart};

use super::loaded::Loaded;
use super::note::Note;
use super::start::start;
use super::starts::Starts;
use costs::Cost;
use networks::Network;

impl<N: Network> Loaded<'_, N> {
    // Works out what is cheapest from a start to each place. True if the last scan changed nothing. Rows past the last place stay.
    pub(crate) fn search(
        &self,
        rows: &mut [<N::Cost as Cost>::Row],
        notes: &mut [Note],
        starts: Starts,
    ) -> bool
        requires rows { (N.Network.means self.now.net.now).places ≤ length rows.old }
        requires notes { length notes.old ≡ (N.Network.means self.now.net.now).places }
        requires inside { (v : ℕ) → IsStart (N.Network.means self.now.net.now).places starts v → v < (N.Network.means self.now.net.now).places }
        ensures found { Searched N.Cost.Cost.kind (N.Network.means self.now.net.now) self.now.loads.now
            (IsStart (N.Network.means self.now.net.now).places starts)
            (front (N.Network.means self.now.net.now).places (tables rows.new notes.new)) result }
        ensures past { drop (N.Network.means self.now.net.now).places rows.new ≡ drop (N.Network.means self.now.net.now).places rows.old }
    {
        let rows = &mut rows[..self.net.places()];
        start::<N::Cost>(rows, notes, starts);
        self.rounds(rows, notes)
    }
}
