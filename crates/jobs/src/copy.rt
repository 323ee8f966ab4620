ghost use Rattle.jobs.specs.Writing.{Copies};

use super::check::check_file;
use super::fault::Fault;
use super::form::Form;
use super::reader::Reader;
use networks::Refusal;

// Reads a file record by record, and writes each record into the table after the one before. The table then begins with the same bytes.
pub fn copy_file(form: Form, bytes: &[u8], table: &mut [u8]) -> Result<usize, Fault>
    ensures { Copies form bytes.now table.old result table.new }
{
    if table.len() < bytes.len() {
        return Err(Fault {
            refusal: Refusal::ShortTable,
            offset: 0,
        });
    }
    check_file(form, bytes)?;
    let mut reader = Reader::new(form, bytes);
    let mut end = 0;
    while let Some(record) = reader.next()? {
        // The table has room for the whole file, so that no record is refused.
        end = record.entry.write(table, end).unwrap();
    }
    Ok(end)
}
