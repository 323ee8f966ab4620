// Where a search starts.
#[derive(Clone, Copy)]
pub(crate) enum Starts {
    At(usize),
    Everywhere,
}
