// The two forms of file.
#[derive(Clone, Copy, PartialEq, Eq, Debug)]
pub enum Form {
    Job,
    Grid,
}
