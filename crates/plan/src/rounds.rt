ghost use Rattle.plan.specs.Entries.{Level, Under, tables};
ghost use Rattle.plan.specs.Rounds.{Rounds};

use super::loaded::Loaded;
use super::note::Note;
use costs::Cost;
use networks::Network;

impl<N: Network> Loaded<'_, N> {
    // Scans until nothing changes, at most as often as there are places. True if the last scan changed nothing.
    pub(crate) fn rounds(&self, rows: &mut [<N::Cost as Cost>::Row], notes: &mut [Note]) -> bool
        requires level { Level (N.Network.means self.now.net.now).places (tables rows.old notes.old) }
        requires room { Under N.Cost.Cost.kind (tables rows.old notes.old) 3000000000000000000 }
        ensures { Rounds N.Cost.Cost.kind (N.Network.means self.now.net.now) self.now.loads.now
            (tables rows.old notes.old)
            (tables rows.new notes.new) result }
    {
        for _ in 0..self.net.places() {
            if !self.scan(rows, notes) {
                return true;
            }
        }
        false
    }
}
