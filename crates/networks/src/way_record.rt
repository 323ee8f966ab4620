// A way in a table, with the row of its cost.
#[derive(Clone, Copy, PartialEq, Eq, Debug)]
pub struct WayRecord<R> {
    pub tail: usize,
    pub head: usize,
    pub limit: u32,
    pub cost: R,
}
