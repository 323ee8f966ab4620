ghost use Rattle.std.specs.Prelude.{◌≡◌, ◌+◌, take, IfOk, IfSome};
ghost use Rattle.jobs.specs.Files.{longest};

use super::reader::LONGEST_FILE;
use std::alloc::Global;
use std::io;
use std::io::Read;

// The bytes of a file from the input. One byte more than a file may have is enough to know that it is too long (a `u64` has no `From` of a `usize`).
pub fn read_file<R: Read + Drop>(heap: Global, input: R) -> io::Result<Vec<u8>>
    ensures { IfOk result (λ bytes. IfSome (R.remaining input) (λ xs. bytes.items ≡ take (longest + 1) xs)) }
{
    let mut bytes = Vec::new(heap);
    input.take(LONGEST_FILE as u64 + 1).read_to_end(&mut bytes)?;
    Ok(bytes)
}
