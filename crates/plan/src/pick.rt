ghost use Rattle.std.specs.Prelude.{◌≡◌, ◌<◌, ◌≤◌, length, Some, MatchBool, MatchOption};
ghost use Rattle.std.specs.List.{slice_get};
ghost use Rattle.std.specs.Option.{option_map};
ghost use Rattle.costs.specs.Group.{Below};
ghost use Rattle.costs.specs.Kind.{values};
ghost use Rattle.plan.specs.Entries.{tables};
ghost use Rattle.plan.specs.Picks.{Spent, Lowest, Picked};

use super::note::Note;
use costs::Cost;

// The lowest place with a positive rest.
pub(crate) fn source(rests: &[i64]) -> Option<usize>
    ensures { MatchOption result (Spent rests.now) (Lowest rests.now) }
{
    rests.iter().position(|&rest| rest > 0)
}

// Whether the row of `v` reads as less than that of `b`.
fn cheaper<C: Cost>(rows: &[C::Row], v: usize, b: usize) -> bool
    requires within { (v < length rows.now) × (b < length rows.now) }
    ensures { (x y : C.Cost.kind.group.Carrier) → option_map (values C.Cost.kind) (slice_get rows.now v) ≡ Some x →
        option_map (values C.Cost.kind) (slice_get rows.now b) ≡ Some y → MatchBool result (Below C.Cost.kind.group x y) (C.Cost.kind.group.le y x) }
{
    C::read(rows[v]).compare(C::read(rows[b])).is_lt()
}

// The cheapest place with a negative rest that a search has come to, the lowest number among equals.
pub(crate) fn cheapest<C: Cost>(rests: &[i64], rows: &[C::Row], notes: &[Note]) -> Option<usize>
    requires rows { length rests.now ≤ length rows.now }
    requires notes { length rests.now ≤ length notes.now }
    ensures { Picked C.Cost.kind rests.now (tables rows.now notes.now) (length rests.now) result }
{
    // With `filter` and `min_by` the proof does not close: that the closure may be called at each place stays open.
    let mut best = None;
    for (v, &rest) in rests.iter().enumerate() {
        if rest >= 0 || !notes[v].is_seen() {
            continue;
        }
        let Some(least) = best else {
            best = Some(v);
            continue;
        };
        if cheaper::<C>(rows, v, least) {
            best = Some(v);
        }
    }
    best
}
