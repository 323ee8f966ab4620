use super::table::Table;

// A plan over a network, which it holds. It is made closed and empty. The table is made with it and serves it open, so `opened` is no enum around one.
#[derive(Drop)]
pub struct Plan<N> {
    pub(crate) net: N,
    pub(crate) table: Table,
    pub(crate) opened: bool,
}
