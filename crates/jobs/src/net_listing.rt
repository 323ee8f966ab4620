ghost use Rattle.std.specs.Prelude.{◌≡◌, IfOk, Some, string_bytes};
ghost use Rattle.jobs.specs.Sections.{section_net};
ghost use Rattle.jobs.specs.NetText.{cost_words, way_line, net_text};

use super::file_section::FileSection;
use costs::{Cost, Pair, Whole};
use networks::{Ends, Network};
use std::alloc::{AllocError, Global};
use std::fmt;

// What each load on a way costs.
#[derive(Clone, Copy)]
struct PerLoad(Pair<Whole, Whole>);

impl fmt::Display for PerLoad {
    ghost output = { λ c. Some (cost_words c.0) };

    fn fmt<W: fmt::Write>(&self, f: &mut fmt::Formatter<W>) -> fmt::Result {
        let (redraws, misfit) = self.0.row();
        write!(f, " cost {redraws} {misfit}")
    }
}

// A way's line in the listing of its network.
#[derive(Clone, Copy)]
struct WayLine {
    way: usize,
    ends: Ends,
    cost: Pair<Whole, Whole>,
}

impl fmt::Display for WayLine {
    ghost output = { λ l. Some (way_line l.way (record { tail = l.ends.tail; head = l.ends.head; limit = l.ends.limit; cost = l.cost })) };

    fn fmt<W: fmt::Write>(&self, f: &mut fmt::Formatter<W>) -> fmt::Result {
        let Ends { tail, head, limit } = self.ends;
        writeln!(
            f,
            "way {} from {tail} to {head} limit {limit}{}",
            self.way,
            PerLoad(self.cost)
        )
    }
}

// The network of a job file, in words.
pub fn list_network(heap: Global, net: &FileSection) -> Result<String, AllocError>
    ensures { IfOk result (λ t. string_bytes t ≡ net_text (section_net net.now)) }
{
    let places = net.places();
    let ways = net.ways();
    let mut text = format!(in heap; "places {places} ways {ways}\n")?;
    // The ways are read where they stand in the file, so that there is no slice of them to go over.
    for way in 0..ways {
        let Some(ends) = net.way(way) else {
            unreachable()
        };
        let Some(cost) = net.cost(way) else {
            unreachable()
        };
        write!(text, "{}", WayLine { way, ends, cost })?;
    }
    Ok(text)
}
