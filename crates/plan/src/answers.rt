ghost use Rattle.std.specs.Prelude.{◌≡◌, Ok};
ghost use Rattle.plan.specs.Plans.{routing, settling};

use super::calls::{Answer, Outcome, Routed};

impl From<Routed> for Answer {
    ghost from_gives = { λ routed answer. answer ≡ routing (Ok routed) };

    fn from(routed: Routed) -> Answer {
        match routed {
            Routed::Settled => Answer::Settled,
            Routed::Blocked { at } => Answer::Blocked { at },
            Routed::Sent { from, to, amount } => Answer::Sent { from, to, amount },
        }
    }
}

impl From<Outcome> for Answer {
    ghost from_gives = { λ outcome answer. answer ≡ settling (Ok outcome) };

    fn from(outcome: Outcome) -> Answer {
        Answer::Ran {
            routes: outcome.routes,
            ending: outcome.ending,
        }
    }
}
