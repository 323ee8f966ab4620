ghost use Rattle.std.specs.Prelude.{IfOk, MatchResult, Some, string_bytes};
ghost use Rattle.jobs.specs.Listing.{cost_words, words, line_of, Tells, Lists};
ghost use Rattle.jobs.specs.Stops.{StoppedBy};

use super::entry::Entry;
use super::form::Form;
use super::reader::Reader;
use super::stop::Stop;
use std::alloc::{AllocError, Global};
use std::fmt;

// What a way bears, and what that costs.
#[derive(Clone, Copy)]
struct Terms {
    limit: u32,
    redraws: i32,
    misfit: i32,
}

impl fmt::Display for Terms {
    ghost output = { λ t. Some (cost_words t.limit t.redraws t.misfit) };

    fn fmt<W: fmt::Write>(&self, f: &mut fmt::Formatter<W>) -> fmt::Result {
        let Terms {
            limit,
            redraws,
            misfit,
        } = *self;
        write!(f, " limit {limit} redraws {redraws} misfit {misfit}")
    }
}

// What a record says; `index` is how many records stand before it, so that the ways of a job count from 0.
#[derive(Clone, Copy)]
struct Numbered {
    index: usize,
    entry: Entry,
}

impl fmt::Display for Numbered {
    ghost output = { λ n. Some (words n.index n.entry) };

    fn fmt<W: fmt::Write>(&self, f: &mut fmt::Formatter<W>) -> fmt::Result {
        match self.entry {
            Entry::Head { places, ways } => write!(f, "head places {places} ways {ways}"),
            Entry::Way {
                tail,
                head,
                limit,
                redraws,
                misfit,
            } => {
                let way = self.index.saturating_sub(1);
                let terms = Terms {
                    limit,
                    redraws,
                    misfit,
                };
                write!(f, "way {way} from {tail} to {head}{terms}")
            }
            Entry::Book { from, to, amount } => {
                write!(f, "book from {from} to {to} amount {amount}")
            }
            Entry::Route => write!(f, "route"),
            Entry::Settle { budget } => write!(f, "settle budget {budget}"),
            Entry::Total => write!(f, "total"),
            Entry::Prices => write!(f, "prices"),
            Entry::Group { length, count } => write!(f, "group length {length} count {count}"),
            Entry::Last { length, count } => write!(f, "last length {length} stock {count}"),
        }
    }
}

// A record's line in the listing of its file.
#[derive(Clone, Copy)]
struct Listed {
    offset: usize,
    said: Numbered,
}

impl fmt::Display for Listed {
    ghost output = { λ l. Some (line_of l.said.index l.offset l.said.entry) };

    fn fmt<W: fmt::Write>(&self, f: &mut fmt::Formatter<W>) -> fmt::Result {
        writeln!(f, "{} {}", self.offset, self.said)
    }
}

fn lines(heap: Global, form: Form, bytes: &[u8]) -> Result<String, Stop>
    ensures { MatchResult result (λ t. Tells form bytes.now (string_bytes t)) (StoppedBy form bytes.now) }
{
    let mut text = String::new(heap);
    let mut reader = Reader::new(form, bytes);
    // `next` is the question of a reader, and can fail: so the lines are counted, and no iterator's.
    let mut index = 0;
    while let Some(record) = reader.next()? {
        let said = Numbered {
            index,
            entry: record.entry,
        };
        write!(
            text,
            "{}",
            Listed {
                offset: record.offset,
                said,
            }
        )?;
        index += 1;
    }
    Ok(text)
}

// The listing of a file: a line for each record, or the line of its first fault alone.
pub fn list_file(heap: Global, form: Form, bytes: &[u8]) -> Result<String, AllocError>
    ensures { IfOk result (λ t. Lists form bytes.now (string_bytes t)) }
{
    lines(heap, form, bytes).or_else(move |stop| stop.line(heap))
}
