use super::entry::Entry;

// A record where it stands in a file: what it says, its body as a part of the file's bytes, and the offset of its kind byte.
#[derive(Clone, Copy, PartialEq, Eq, Debug)]
pub struct Record<'a> {
    pub entry: Entry,
    pub body: &'a [u8],
    pub offset: usize,
}
