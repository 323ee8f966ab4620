// A group of feet: their length, and how many heads it counts. A type apart from `Last`, so that neither table is taken for the other.
#[derive(Clone, Copy, PartialEq, Eq, Debug)]
pub struct Group {
    pub length: u16,
    pub count: u32,
}

// A last: its length, and how many are in stock.
#[derive(Clone, Copy, PartialEq, Eq, Debug)]
pub struct Last {
    pub length: u16,
    pub stock: u32,
}
