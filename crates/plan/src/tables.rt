ghost use Rattle.std.specs.Prelude.{◌≡◌, replicate, pos, IfOk};

use super::note::Note;
use super::table::Table;
use std::alloc::{AllocError, Global};

impl Table {
    pub(crate) fn new(heap: Global, places: usize, ways: usize) -> Result<Table, AllocError>
        ensures { IfOk result (λ t. (t.loads.items ≡ replicate ways 0) × (t.rests.items ≡ replicate places (pos 0))) }
    {
        let loads = vec![in heap; 0u32; ways]?;
        let rests = vec![in heap; 0i64; places]?;
        let notes = vec![in heap; Note::Unseen; places]?;
        let path = Vec::with_capacity(heap, places)?;
        Ok(Table {
            loads,
            rests,
            count: 0,
            notes,
            path,
        })
    }
}
