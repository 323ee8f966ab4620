ghost use Rattle.std.specs.Prelude.{◌≡◌, ◌≤◌, vec_capacity};
ghost use Rattle.plan.specs.Trails.{Trails};

use super::loaded::Loaded;
use super::note::Note;
use super::step::Step;
use costs::Cost;
use networks::Network;

impl<N: Network> Loaded<'_, N> {
    // Follows the noted steps back from `to` to a start, and puts them on the path. The amount is the smallest of `amount` and their rooms.
    // None if they do not come to a start before there are as many as places.
    pub(crate) fn trace(
        &self,
        notes: &[Note],
        path: &mut Vec<Step>,
        to: usize,
        amount: u32,
    ) -> Option<u32>
        requires { (N.Network.means self.now.net.now).places ≤ vec_capacity path.old }
        ensures room { vec_capacity path.new ≡ vec_capacity path.old }
        ensures trails { Trails N.Cost.Cost.kind (N.Network.means self.now.net.now) self.now.loads.now notes.now to amount path.new.items result }
    {
        path.clear();
        let mut at = to;
        let mut left = amount;
        for _ in 0..self.net.places() {
            match *notes.get(at)? {
                Note::Unseen => return None,
                Note::Start => return Some(left),
                Note::Via(step) => {
                    let span = self.span(step)?;
                    path.push_reserved(step);
                    left = left.min(span.room);
                    at = span.from;
                }
            }
        }
        None
    }
}
