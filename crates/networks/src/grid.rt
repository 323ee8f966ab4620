ghost use Rattle.std.specs.Prelude.{◌≡◌, ◌≤◌, length, take};
ghost use Rattle.networks.specs.Grids.{most_sizes, difference, amount, grid_net, IsPart};

use super::ends::Ends;
use super::network::Network;
use super::part::Part;
use super::sizes::{Group, Last};
use costs::{Cost, Whole};

// Every group may go to every last, and every last to one collector. Ways are answered by formula, and none is stored.
#[derive(Clone, Copy, PartialEq, Eq, Debug)]
pub struct SizeGrid<'a> {
    pub groups: &'a [Group],
    pub lasts: &'a [Last],
}

// The records of a table that count.
fn used<T>(records: &[T]) -> &[T]
    ensures front { result.now ≡ take most_sizes records.now }
    ensures few { length result.now ≤ most_sizes }
{
    &records[..records.len().min(1024)]
}

// How far two lengths are apart, as a cost.
fn apart(a: u16, b: u16) -> Whole
    ensures { result ≡ amount (difference a b) }
{
    Whole::read(i64::from(a.abs_diff(b)))
}

// What way `k` of the grid over these tables is, or none if that is no way.
fn part(groups: &[Group], lasts: &[Last], k: usize) -> Option<Part>
    requires few { (length groups.now ≤ most_sizes) × (length lasts.now ≤ most_sizes) }
    ensures { IsPart groups.now lasts.now k result }
{
    let cells = groups.len() * lasts.len();
    if k < cells {
        let i = k / lasts.len();
        let j = k % lasts.len();
        return Some(Part::Fitting { i, j });
    }
    let j = k - cells;
    if j < lasts.len() {
        Some(Part::Collecting { j })
    } else {
        None
    }
}

impl<'a> Network for SizeGrid<'a> {
    type Cost = Whole;

    ghost means = { λ s. grid_net (take most_sizes s.groups.now) (take most_sizes s.lasts.now) };

    fn places(&self) -> usize {
        used(self.groups).len() + used(self.lasts).len() + 1
    }

    fn ways(&self) -> usize {
        let lasts = used(self.lasts).len();
        used(self.groups).len() * lasts + lasts
    }

    fn way(&self, k: usize) -> Option<Ends> {
        let groups = used(self.groups);
        let lasts = used(self.lasts);
        Some(match part(groups, lasts, k)? {
            Part::Fitting { i, j } => Ends {
                tail: i,
                head: groups.len() + j,
                limit: groups[i].count,
            },
            Part::Collecting { j } => Ends {
                tail: groups.len() + j,
                head: groups.len() + lasts.len(),
                limit: lasts[j].stock,
            },
        })
    }

    fn cost(&self, k: usize) -> Option<Whole> {
        let groups = used(self.groups);
        let lasts = used(self.lasts);
        match part(groups, lasts, k)? {
            Part::Fitting { i, j } => {
                let group = groups[i];
                let last = lasts[j];
                Some(apart(group.length, last.length))
            }
            Part::Collecting { .. } => Some(Whole::read(0)),
        }
    }
}
