ghost use Rattle.plan.specs.Legs.{LegOf, SpanOf};

use super::loaded::Loaded;
use super::step::Step;
use costs::Cost;
use networks::Network;

// Where a step leads from and to, and how much room it has.
#[derive(Clone, Copy)]
pub(crate) struct Span {
    pub(crate) from: usize,
    pub(crate) to: usize,
    pub(crate) room: u32,
}

// Where a step leads from and to, at what cost, and how much room it has.
#[derive(Clone, Copy)]
pub(crate) struct Leg<C> {
    pub(crate) from: usize,
    pub(crate) to: usize,
    pub(crate) cost: C,
    pub(crate) room: u32,
}

impl<N: Network> Loaded<'_, N> {
    // The span of a step, if the step has room: for it no cost is asked.
    pub(crate) fn span(&self, step: Step) -> Option<Span>
        ensures { SpanOf N.Cost.Cost.kind (N.Network.means self.now.net.now) self.now.loads.now step result }
    {
        let k = step.way();
        let ends = self.net.way(k)?;
        let load = self.loads[k];
        let span = match step {
            Step::Ahead(_) => Span {
                from: ends.tail,
                to: ends.head,
                room: ends.limit.saturating_sub(load),
            },
            Step::Back(_) => Span {
                from: ends.head,
                to: ends.tail,
                room: load,
            },
        };
        (span.room > 0).then_some(span)
    }

    // The leg of a step, if the step has room.
    pub(crate) fn leg(&self, step: Step) -> Option<Leg<N::Cost>>
        ensures { LegOf N.Cost.Cost.kind (N.Network.means self.now.net.now) self.now.loads.now step result }
    {
        let Span { from, to, room } = self.span(step)?;
        let cost = self.net.cost(step.way())?;
        let cost = match step {
            Step::Ahead(_) => cost,
            Step::Back(_) => cost.opposite(),
        };
        Some(Leg {
            from,
            to,
            cost,
            room,
        })
    }
}
