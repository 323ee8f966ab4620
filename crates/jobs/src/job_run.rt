ghost use Rattle.std.specs.Prelude.{◌≡◌, length, IfOk, MatchResult, string_bytes};
ghost use Rattle.jobs.specs.declared.form.Form.TheVariants as form;
ghost use Rattle.jobs.specs.JobRuns.{asked_call, fits, total_said, prices_said, Puts, Ran, JobSays};
ghost use Rattle.plan.specs.declared.calls.Answer.TheVariants.{Refused};
ghost use Rattle.jobs.specs.Lines.{answer_line, line_bytes};
ghost use Rattle.jobs.specs.Stops.{StoppedBy};
ghost use Rattle.jobs.specs.Sections.{section_net};

use super::entry::Entry;
use super::file_section::FileSection;
use super::form::Form;
use super::lines::Line;
use super::reader::Reader;
use super::stop::Stop;
use costs::{Cost, Pair, Whole};
use networks::{Network, Refusal};
use plan::{Answer, Call, Plan};
use std::alloc::{AllocError, Global};

// The call that a record makes of the plan.
fn call_of(entry: Entry) -> Option<Call>
    ensures { result ≡ asked_call entry }
{
    match entry {
        Entry::Book { from, to, amount } => Some(Call::Book {
            from: usize::from(from),
            to: usize::from(to),
            amount,
        }),
        Entry::Route => Some(Call::Route),
        Entry::Settle { budget } => Some(Call::Settle { budget }),
        _ => None,
    }
}

// The line of a refused question.
fn refused<'a>(offset: usize, refusal: Refusal) -> Line<'a>
    ensures { line_bytes result ≡ answer_line offset (Refused refusal) }
{
    Line::Answer {
        offset,
        answer: Answer::Refused(refusal),
    }
}

// The line of a total.
fn line_of_total<'a>(offset: usize, told: Result<Pair<Whole, Whole>, Refusal>) -> Line<'a>
    ensures { line_bytes result ≡ total_said offset told }
{
    match told {
        Ok(cost) => {
            let (redraws, misfit) = cost.row();
            Line::PairTotal { redraws, misfit }
        }
        Err(refusal) => refused(offset, refusal),
    }
}

// The line of the prices, which stand in the rows.
fn line_of_prices<'a>(offset: usize, told: Result<(), Refusal>, rows: &'a [(i64, i64)]) -> Line<'a>
    ensures { line_bytes result ≡ prices_said offset told rows.now }
{
    match told {
        Ok(()) => Line::Prices { rows },
        Err(refusal) => refused(offset, refusal),
    }
}

// Puts a record to the plan, and tells its line. A record that asks nothing has none.
fn put_record<'a>(
    heap: Global,
    plan: &mut Plan<FileSection<'a>>,
    rows: &mut [(i64, i64)],
    offset: usize,
    entry: Entry,
) -> Result<String, AllocError>
    ensures net { plan.new.net ≡ plan.old.net }
    ensures put { IfOk result (λ t. length rows.old ≡ (section_net plan.old.net).places →
        Puts (section_net plan.old.net) plan.old offset entry (string_bytes t) plan.new) }
{
    if let Some(call) = call_of(entry) {
        let answer = plan.perform(call, rows);
        return Line::Answer { offset, answer }.text(heap);
    }
    match entry {
        Entry::Total => line_of_total(offset, plan.total()).text(heap),
        Entry::Prices => {
            let told = plan.prices(rows);
            line_of_prices(offset, told, rows).text(heap)
        }
        _ => Ok(String::new(heap)),
    }
}

fn run(heap: Global, bytes: &[u8]) -> Result<String, Stop>
    ensures { MatchResult result (λ t. Ran bytes.now (string_bytes t)) (StoppedBy form.Job bytes.now) }
{
    let section = FileSection::new(bytes);
    let mut rows = vec![in heap; (0, 0); section.places()]?;
    let mut plan = Plan::new(heap, section)?;
    let answer = plan.perform(Call::Open, rows.as_mut_slice());
    let mut text = Line::Answer { offset: 0, answer }.text(heap)?;
    let mut reader = Reader::new(Form::Job, bytes);
    while let Some(record) = reader.next()? {
        let line = put_record(
            heap,
            &mut plan,
            rows.as_mut_slice(),
            record.offset,
            record.entry,
        )?;
        text.push_str(line.as_str())?;
    }
    Ok(text)
}

// Runs a job: a line for each call, the opening first, or the line of the file's first fault alone.
pub fn run_job(heap: Global, bytes: &[u8]) -> Result<String, AllocError>
    ensures { IfOk result (λ t. JobSays bytes.now (string_bytes t)) }
{
    run(heap, bytes).or_else(move |stop| stop.line(heap))
}
