ghost use Rattle.std.specs.Prelude.{◌≡◌, ℕ, ◌<◌, length};
ghost use Rattle.plan.specs.Entries.{tables};
ghost use Rattle.plan.specs.Starts.{Zeros, IsStart};

use super::note::Note;
use super::starts::Starts;
use costs::Cost;

// Notes the starts, and no other place, with zero in their rows.
pub(crate) fn start<C: Cost>(rows: &mut [C::Row], notes: &mut [Note], starts: Starts)
    requires level { length notes.old ≡ length rows.old }
    requires inside { (v : ℕ) → IsStart (length rows.old) starts v → v < length rows.old }
    ensures { Zeros C.Cost.kind (IsStart (length rows.old) starts) (tables rows.new notes.new) }
{
    let zero = C::zero().row();
    match starts {
        Starts::At(from) => {
            notes.fill(Note::Unseen);
            notes[from] = Note::Start;
            rows[from] = zero;
        }
        Starts::Everywhere => {
            notes.fill(Note::Start);
            // `fill` would clone, and of the rows of a kind of cost no clone is promised.
            for row in rows.iter_mut() {
                *row = zero;
            }
        }
    }
}
