// What a way of a grid is: from group `i` to last `j`, or from last `j` to the collector.
#[derive(Clone, Copy, PartialEq, Eq, Debug)]
pub(crate) enum Part {
    Fitting { i: usize, j: usize },
    Collecting { j: usize },
}
