ghost use Rattle.jobs.specs.Files.{Checked};

use super::fault::Fault;
use super::form::Form;
use super::reader::Reader;

// How many records a good file has, or the first fault of any other.
pub fn check_file(form: Form, bytes: &[u8]) -> Result<usize, Fault>
    ensures { Checked form bytes.now result }
{
    let mut reader = Reader::new(form, bytes);
    // `next` is the question of a reader, and can fail: so these are counted, and not an iterator's.
    let mut records = 0;
    while let Some(_) = reader.next()? {
        records += 1;
    }
    Ok(records)
}
