// The two ends of a way (an arc), and its limit (its capacity).
#[derive(Clone, Copy, PartialEq, Eq, Debug)]
pub struct Ends {
    pub tail: usize,
    pub head: usize,
    pub limit: u32,
}
