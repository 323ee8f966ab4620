ghost use Rattle.std.specs.Prelude.{◌*◌, length};
ghost use Rattle.plan.specs.Entries.{Level, Under, tables};
ghost use Rattle.plan.specs.Sweeps.{Swept, Left, By};

use super::loaded::Loaded;
use super::note::Note;
use super::relax::relax;
use super::step::Step;
use costs::Cost;
use networks::Network;

impl<N: Network> Loaded<'_, N> {
    // Relaxes a step, if it has room. True if something changed.
    fn relax_along(
        &self,
        rows: &mut [<N::Cost as Cost>::Row],
        notes: &mut [Note],
        step: Step,
    ) -> bool
        requires level { Level (N.Network.means self.now.net.now).places (tables rows.old notes.old) }
        requires room { Under N.Cost.Cost.kind (tables rows.old notes.old) 3999999999999000000 }
        ensures { Swept N.Cost.Cost.kind
            (By N.Cost.Cost.kind (N.Network.means self.now.net.now) self.now.loads.now step)
            (By N.Cost.Cost.kind (N.Network.means self.now.net.now) self.now.loads.now step) 1000000
            (tables rows.old notes.old)
            (tables rows.new notes.new) result }
    {
        let Some(leg) = self.leg(step) else {
            return false;
        };
        relax::<N::Cost>(rows, notes, step, leg)
    }

    // One scan of the ways, each ahead and back. True if something changed.
    pub(crate) fn scan(&self, rows: &mut [<N::Cost as Cost>::Row], notes: &mut [Note]) -> bool
        requires level { Level (N.Network.means self.now.net.now).places (tables rows.old notes.old) }
        requires room { Under N.Cost.Cost.kind (tables rows.old notes.old) 3500000000000000000 }
        ensures { Swept N.Cost.Cost.kind
            (Left N.Cost.Cost.kind (N.Network.means self.now.net.now) self.now.loads.now)
            (Left N.Cost.Cost.kind (N.Network.means self.now.net.now) self.now.loads.now) (2000000 * length (N.Network.means self.now.net.now).ways)
            (tables rows.old notes.old)
            (tables rows.new notes.new) result }
    {
        let mut changed = false;
        // A step carries the number of its way, and a network is no slice: so the loop counts.
        for k in 0..self.ways() {
            changed |= self.relax_along(rows, notes, Step::Ahead(k));
            changed |= self.relax_along(rows, notes, Step::Back(k));
        }
        changed
    }
}
