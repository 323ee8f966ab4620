ghost use Rattle.std.specs.Prelude.{Some};
ghost use Rattle.plan.specs.Words.{routed_words, ending_words, outcome_words, answer_words};

use networks::Refusal;
use std::fmt;

// What may be asked of a plan to change it.
#[derive(Clone, Copy, PartialEq, Eq, Debug)]
pub enum Call {
    Open,
    Book { from: usize, to: usize, amount: u32 },
    Route,
    Settle { budget: u32 },
}

// How a route ends.
#[derive(Clone, Copy, PartialEq, Eq, Debug)]
pub enum Routed {
    Settled,
    Blocked { at: usize },
    Sent { from: usize, to: usize, amount: u32 },
}

// How a settle ends.
#[derive(Clone, Copy, PartialEq, Eq, Debug)]
pub enum Ending {
    Settled,
    Blocked { at: usize },
    Unfinished,
}

// What a settle did: so many routes were sent, and how it ended.
#[derive(Clone, Copy, PartialEq, Eq, Debug)]
pub struct Outcome {
    pub routes: u32,
    pub ending: Ending,
}

// What a plan answers to a call: flat, though a `Result` in shape, since the law goes through the answers one by one.
#[derive(Clone, Copy, PartialEq, Eq, Debug)]
pub enum Answer {
    Opened,
    Booked,
    Settled,
    Blocked { at: usize },
    Sent { from: usize, to: usize, amount: u32 },
    Ran { routes: u32, ending: Ending },
    Refused(Refusal),
}

impl fmt::Display for Routed {
    ghost output = { λ r. Some (routed_words r) };

    fn fmt<W: fmt::Write>(&self, f: &mut fmt::Formatter<W>) -> fmt::Result {
        match self {
            Routed::Settled => write!(f, "settled"),
            Routed::Blocked { at } => write!(f, "blocked {at}"),
            Routed::Sent { from, to, amount } => write!(f, "sent {amount} from {from} to {to}"),
        }
    }
}

impl fmt::Display for Ending {
    ghost output = { λ e. Some (ending_words e) };

    fn fmt<W: fmt::Write>(&self, f: &mut fmt::Formatter<W>) -> fmt::Result {
        match self {
            Ending::Settled => write!(f, "settled"),
            Ending::Blocked { at } => write!(f, "{}", Routed::Blocked { at: *at }),
            Ending::Unfinished => write!(f, "unfinished"),
        }
    }
}

impl fmt::Display for Outcome {
    ghost output = { λ o. Some (outcome_words o.routes o.ending) };

    fn fmt<W: fmt::Write>(&self, f: &mut fmt::Formatter<W>) -> fmt::Result {
        write!(f, "{} {}", self.routes, self.ending)
    }
}

impl fmt::Display for Answer {
    ghost output = { λ a. Some (answer_words a) };

    fn fmt<W: fmt::Write>(&self, f: &mut fmt::Formatter<W>) -> fmt::Result {
        match self {
            Answer::Opened => write!(f, "open"),
            Answer::Booked => write!(f, "booked"),
            Answer::Settled => write!(f, "{}", Routed::Settled),
            Answer::Blocked { at } => write!(f, "{}", Routed::Blocked { at: *at }),
            Answer::Sent { from, to, amount } => {
                let sent = Routed::Sent {
                    from: *from,
                    to: *to,
                    amount: *amount,
                };
                write!(f, "{sent}")
            }
            Answer::Ran { routes, ending } => {
                let outcome = Outcome {
                    routes: *routes,
                    ending: *ending,
                };
                write!(f, "{outcome}")
            }
            Answer::Refused(refusal) => write!(f, "{refusal}"),
        }
    }
}
