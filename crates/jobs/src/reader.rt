ghost use Rattle.std.specs.Prelude.{◌≤◌, length};

// How many bytes a file may have.
pub const LONGEST_FILE: usize = 60_000;

// What a reader looks for next: `Ways` has how many ways are still to come, at least one.
#[derive(Clone, Copy, PartialEq, Eq, Debug)]
pub(crate) enum Stage {
    Head,
    Ways(u16),
    Calls,
    Sizes,
}

// Reads a file record by record, on the file's own bytes.
#[derive(Clone, Copy, PartialEq, Eq, Debug)]
pub struct Reader<'a> {
    pub(crate) bytes: &'a [u8],
    pub(crate) offset: usize,
    pub(crate) stage: Stage,
    ghost within: { offset ≤ length bytes.now },
}
