ghost use Rattle.std.specs.Prelude.{◌≡◌, ℕ, ◌+◌, ◌<◌, ◌≤◌, length, if◌then◌else◌, Some, None, MatchBool};
ghost use Rattle.costs.specs.Kind.{heaviest, values, weights};
ghost use Rattle.plan.specs.Entries.{Most, Better, is_seen, noted, tables};
ghost use Rattle.plan.specs.Sweeps.{Swept, One};

use super::leg::Leg;
use super::note::Note;
use super::step::Step;
use costs::Cost;

// Whether `next` is less than the entry of a place with that note and row, or there is none.
fn improves<C: Cost>(next: C, note: Note, row: C::Row) -> bool
    ensures { MatchBool result
        (Better C.Cost.kind.group (if is_seen note then Some (values C.Cost.kind row) else None) (C.Cost.kind.value next))
        (Most C.Cost.kind.group (if is_seen note then Some (values C.Cost.kind row) else None) (C.Cost.kind.value next)) }
{
    !note.is_seen() || next.compare(C::read(row)).is_lt()
}

// Lowers the entry of the place to which the leg of a step leads, if that way there costs less, and says whether it did.
pub(crate) fn relax<C: Cost>(
    rows: &mut [C::Row],
    notes: &mut [Note],
    step: Step,
    leg: Leg<C>,
) -> bool
    requires within { (leg.from < length rows.old) × (leg.to < length rows.old) }
    requires level { length notes.old ≡ length rows.old }
    requires room { (w : ℕ) → noted (weights C.Cost.kind) (tables rows.old notes.old) leg.from ≡ Some w →
        w + C.Cost.kind.weighs leg.cost ≤ heaviest }
    ensures { Swept C.Cost.kind (One C.Cost.kind step leg.from leg.to (C.Cost.kind.value leg.cost)) (One C.Cost.kind step leg.from leg.to (C.Cost.kind.value leg.cost))
        (C.Cost.kind.weighs leg.cost) (tables rows.old notes.old) (tables rows.new notes.new) result }
{
    if !notes[leg.from].is_seen() {
        return false;
    }
    let Some(next) = C::read(rows[leg.from]).plus(leg.cost) else {
        return false;
    };
    if !improves::<C>(next, notes[leg.to], rows[leg.to]) {
        return false;
    }
    rows[leg.to] = next.row();
    notes[leg.to] = Note::Via(step);
    true
}
