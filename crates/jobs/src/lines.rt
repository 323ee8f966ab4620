ghost use Rattle.std.specs.Prelude.{◌≡◌, IfOk, Some, string_bytes};
ghost use Rattle.jobs.specs.Lines.{way_words, price_words, line_bytes, Written};

use super::fault::Fault;
use super::write::put;
use networks::Refusal;
use plan::Answer;
use std::alloc::{AllocError, Global};
use std::fmt;

// A line that a job program prints.
#[derive(Clone, Copy, PartialEq, Eq, Debug)]
pub enum Line<'a> {
    Answer { offset: usize, answer: Answer },
    PairTotal { redraws: i64, misfit: i64 },
    WholeTotal { misfit: i64 },
    Prices { rows: &'a [(i64, i64)] },
    File(Fault),
}

// The way that a refusal is about, if it is about one.
#[derive(Clone, Copy)]
struct About(Option<usize>);

impl fmt::Display for About {
    ghost output = { λ a. Some (way_words a.0) };

    fn fmt<W: fmt::Write>(&self, f: &mut fmt::Formatter<W>) -> fmt::Result {
        match self.0 {
            None => Ok(()),
            Some(way) => write!(f, " way {way}"),
        }
    }
}

// The prices of the places, one after the other.
#[derive(Clone, Copy)]
struct Prices<'a>(&'a [(i64, i64)]);

impl fmt::Display for Prices<'_> {
    ghost output = { λ p. Some (price_words p.0.now) };

    fn fmt<W: fmt::Write>(&self, f: &mut fmt::Formatter<W>) -> fmt::Result {
        for (redraws, misfit) in self.0 {
            write!(f, " {redraws} {misfit}")?;
        }
        Ok(())
    }
}

// The line, its end included.
impl fmt::Display for Line<'_> {
    ghost output = { λ l. Some (line_bytes l) };

    fn fmt<W: fmt::Write>(&self, f: &mut fmt::Formatter<W>) -> fmt::Result {
        match self {
            Line::Answer {
                offset,
                answer: Answer::Refused(refusal),
            } => { writeln!(f, "{refusal} at {offset}{}", About(refusal.way())) }
            Line::Answer { answer, .. } => writeln!(f, "{answer}"),
            Line::PairTotal { redraws, misfit } => writeln!(f, "total {redraws} {misfit}"),
            Line::WholeTotal { misfit } => writeln!(f, "total {misfit}"),
            Line::Prices { rows } => writeln!(f, "prices{}", Prices(rows)),
            Line::File(fault) => writeln!(f, "{fault}"),
        }
    }
}

impl<'a> Line<'a> {
    pub fn text(self, heap: Global) -> Result<String, AllocError>
        ensures { IfOk result (λ t. string_bytes t ≡ line_bytes self.entry) }
    {
        self.to_string(heap)
    }

    // Puts the line at the beginning of the table, and answers its length.
    pub fn write(self, heap: Global, table: &mut [u8]) -> Result<Result<usize, Refusal>, AllocError>
        ensures { Written (line_bytes self.entry) table.old result table.new }
    {
        let text = self.text(heap)?;
        Ok(put(table, 0, text.as_bytes()))
    }
}
