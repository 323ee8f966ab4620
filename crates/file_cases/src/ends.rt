// What a check and two copies of a file say, in a line each.
use jobs::{Fault, Form, check_file, copy_file};
use std::alloc::{AllocError, Global};

// What a table holds before anything is written.
const BLANK: u8 = 165;

// How a check ends: with the number of records, or with the first fault.
pub fn checked(heap: Global, form: Form, file: &[u8]) -> Result<String, AllocError> {
    match check_file(form, file) {
        Ok(records) => format!(in heap; "records {records}\n"),
        Err(Fault { refusal, offset }) => {
            format!(in heap; "fault {} at {offset}\n", refusal.number())
        }
    }
}

// How a copy into a table of so many bytes ends, and whether the table then holds what it should: the file, or what it held before.
fn copy(
    heap: Global,
    form: Form,
    file: &[u8],
    len: usize,
) -> Result<(Result<usize, Fault>, bool), AllocError> {
    let mut table = vec![in heap; BLANK; len]?;
    let end = copy_file(form, file, table.as_mut_slice());
    let good = match end {
        Ok(_) => table.as_slice() == file,
        Err(_) => table == vec![in heap; BLANK; len]?,
    };
    Ok((end, good))
}

// How a copy into a table of the file's length ends: the same bytes, or refused with the table as it was.
pub fn copied(heap: Global, form: Form, file: &[u8]) -> Result<String, AllocError> {
    match copy(heap, form, file, file.len())? {
        (Ok(n), true) => format!(in heap; "copied {n}\n"),
        (Ok(n), false) => format!(in heap; "copied {n}, and not the same\n"),
        (Err(Fault { refusal, offset }), true) => format!(in heap; "{refusal} at {offset}\n"),
        (Err(Fault { refusal, offset }), false) => {
            format!(in heap; "{refusal} at {offset}, and written\n")
        }
    }
}

// How a copy into a table that is a byte shorter than the file ends: refused with the table as it was. No table is shorter than an empty file.
pub fn cut_off(heap: Global, form: Form, file: &[u8]) -> Result<String, AllocError> {
    let Some(len) = file.len().checked_sub(1) else {
        return Ok(String::new(heap));
    };
    match copy(heap, form, file, len)? {
        (Ok(n), _) => format!(in heap; "short, and copied {n}\n"),
        (Err(fault), true) => format!(in heap; "short {}\n", fault.refusal.number()),
        (Err(fault), false) => format!(in heap; "short {}, and written\n", fault.refusal.number()),
    }
}
