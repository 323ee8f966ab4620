ghost use Rattle.std.specs.Prelude.{◌-◌, ◌*◌, ◌≤◌, length};

// The head and the ways of a job file, read where they are. Over bytes that the reader refuses it has no places and no ways.
#[derive(Clone, Copy, PartialEq, Eq, Debug)]
pub struct FileSection<'a> {
    pub(crate) bytes: &'a [u8],
    pub(crate) places: usize,
    pub(crate) ways: usize,
    ghost whole: { 17 * ways ≤ length bytes.now - 5 },
}
