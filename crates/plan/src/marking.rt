ghost use Rattle.std.specs.Prelude.{◌≡◌, ◌<◌, ◌≤◌, length};
ghost use Rattle.plan.specs.Marks.{Extended, Spread, Spreads};
ghost use Rattle.plan.specs.Questions.{Marked};

use super::loaded::Loaded;
use super::step::Step;
use costs::Cost;
use networks::Network;

// Marks `to`, if `from` is marked. True if that is new. The caller's table has a byte a place, which is 1 for a mark: that is how the question answers.
fn extend(marks: &mut [u8], from: usize, to: usize) -> bool
    requires within { (from < length marks.old) × (to < length marks.old) }
    ensures { Extended from to marks.old marks.new result }
{
    if marks[from] != 1 || marks[to] == 1 {
        return false;
    }
    marks[to] = 1;
    true
}

impl<N: Network> Loaded<'_, N> {
    // Marks along a step, if it has room. True if a mark is new.
    fn mark_along(&self, marks: &mut [u8], step: Step) -> bool
        requires { length marks.old ≡ (N.Network.means self.now.net.now).places }
        ensures { Spread N.Cost.Cost.kind (N.Network.means self.now.net.now) self.now.loads.now (λ s. s ≡ step)
            marks.old marks.new result }
    {
        let Some(span) = self.span(step) else {
            return false;
        };
        extend(marks, span.from, span.to)
    }

    // Marks along the steps of every way, each ahead and back. True if a mark is new. It goes as a scan does; one text for both would take what is done at a step as a closure over what was lent, and say its effect in each contract.
    fn sweep(&self, marks: &mut [u8]) -> bool
        requires { length marks.old ≡ (N.Network.means self.now.net.now).places }
        ensures { Spread N.Cost.Cost.kind (N.Network.means self.now.net.now) self.now.loads.now (λ s. Unit {0})
            marks.old marks.new result }
    {
        let mut changed = false;
        // A step carries the number of its way, and a network is no slice: so the loop counts.
        for k in 0..self.ways() {
            changed |= self.mark_along(marks, Step::Ahead(k));
            changed |= self.mark_along(marks, Step::Back(k));
        }
        changed
    }

    // Sweeps until no mark is new, at most as often as there are places.
    fn sweeps(&self, marks: &mut [u8])
        requires { length marks.old ≡ (N.Network.means self.now.net.now).places }
        ensures { Spreads N.Cost.Cost.kind (N.Network.means self.now.net.now) self.now.loads.now (N.Network.means self.now.net.now).places
            marks.old marks.new }
    {
        for _ in 0..self.net.places() {
            if !self.sweep(marks) {
                return;
            }
        }
    }

    // Marks the reach of `from` with 1, and each other place with 0. A route has fewer steps than there are places, so as many sweeps suffice.
    // Entries past the last place stay.
    pub(crate) fn mark_reach(&self, table: &mut [u8], from: usize)
        requires long { (N.Network.means self.now.net.now).places ≤ length table.old }
        requires within { from < (N.Network.means self.now.net.now).places }
        ensures { Marked N.Cost.Cost.kind (N.Network.means self.now.net.now) self.now.loads.now from
            table.old table.new }
    {
        let marks = &mut table[..self.net.places()];
        marks.fill(0);
        marks[from] = 1;
        self.sweeps(marks);
    }
}
