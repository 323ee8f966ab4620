ghost use Rattle.networks.specs.Tables.{table_net};

use super::ends::Ends;
use super::network::Network;
use super::way_record::WayRecord;
use costs::Cost;

// The caller's number of places, and records of the ways in order. Costs are held as rows.
#[derive(Clone, Copy)]
pub struct WayTable<'a, C: Cost> {
    pub places: usize,
    pub records: &'a [WayRecord<C::Row>],
}

impl<'a, C: Cost> Network for WayTable<'a, C> {
    type Cost = C;

    ghost means = { λ t. table_net C.Cost.kind.reads t.places t.records.now };

    fn places(&self) -> usize {
        self.places
    }

    fn ways(&self) -> usize {
        self.records.len()
    }

    fn way(&self, k: usize) -> Option<Ends> {
        self.records.get(k).map(|record| Ends {
            tail: record.tail,
            head: record.head,
            limit: record.limit,
        })
    }

    fn cost(&self, k: usize) -> Option<C> {
        self.records.get(k).map(|record| C::read(record.cost))
    }
}
