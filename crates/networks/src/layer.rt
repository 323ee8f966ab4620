ghost use Rattle.std.specs.Prelude.{◌≡◌, ◌≤◌, [], length};
ghost use Rattle.networks.specs.Changes.{has};
ghost use Rattle.networks.specs.Layers.{listed, most_listed, with_ways, Adds};

use super::change::{Change, Redrawing, Shutting};
use super::ends::Ends;
use super::network::Network;
use super::refusal::Refusal;
use arrayvec::ArrayVec;
use costs::Cost;
use std::marker::PhantomData;

// A layer over any network, in which `X` changes each way according to whether its number is listed.
#[derive(Drop)]
pub struct Layer<N, X> {
    below: N,
    list: ArrayVec<usize, 64>,
    change: PhantomData<X>,
    ghost few: { length (listed list) ≤ most_listed },
}

// A layer in which a listed way has limit 0.
pub type Shut<N> = Layer<N, Shutting>;

// A layer in which a way costs the pair of 1 or 0, listed or not, and its cost below.
pub type Redraw<N> = Layer<N, Redrawing>;

impl<N: Network, X: Change<N::Cost>> Layer<N, X> {
    pub fn new(below: N) -> Self
        ensures over { result.below ≡ below }
        ensures none { listed result.list ≡ [] }
    {
        Layer {
            below,
            list: ArrayVec::new(),
            change: PhantomData,
        }
    }

    // Lists way `k`. One that is listed already is accepted and alters nothing.
    pub fn add(&mut self, k: usize) -> Result<(), Refusal>
        ensures over { self.new.below ≡ self.old.below }
        ensures list { Adds (length (N.Network.means self.old.below).ways) (listed self.old.list) k result (listed self.new.list) }
    {
        if k >= self.below.ways() {
            return Err(Refusal::NoWay);
        }
        if self.lists(k) {
            return Ok(());
        }
        if self.list.is_full() {
            return Err(Refusal::FullList);
        }
        self.list.push(k);
        Ok(())
    }

    fn lists(&self, k: usize) -> bool
        ensures { result ≡ has (listed self.now.list) k }
    {
        // A loop that counts is seen to end, so the compiler leaves it out where a change does not ask.
        let numbers = self.list.as_slice();
        for i in 0..numbers.len() {
            if numbers[i] == k {
                return true;
            }
        }
        false
    }
}

impl<N: Network, X: Change<N::Cost>> Network for Layer<N, X> {
    type Cost = X::Cost;

    ghost means = { λ s. with_ways (X.changes (listed s.list)) (N.Network.means s.below) };

    fn places(&self) -> usize {
        self.below.places()
    }

    fn ways(&self) -> usize {
        self.below.ways()
    }

    fn way(&self, k: usize) -> Option<Ends> {
        let below = self.below.way(k)?;
        Some(Ends {
            limit: X::limit(self.lists(k), below.limit),
            ..below
        })
    }

    fn cost(&self, k: usize) -> Option<X::Cost> {
        let below = self.below.cost(k)?;
        Some(X::cost(self.lists(k), below))
    }
}
