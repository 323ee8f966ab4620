ghost use Rattle.std.specs.Prelude.{◌≡◌, true, T, vec_len};
ghost use Rattle.plan.specs.Tables.{Cleared};

use super::table::Table;

impl Table {
    // Sets all loads, rests and the count to zero.
    pub(crate) fn clear(&mut self)
        ensures { Cleared self.old self.new }
    {
        self.loads.fill(0);
        self.rests.fill(0);
        self.count = 0;
    }

    // Whether the table was made for so many places and ways.
    pub(crate) fn is_for(&self, places: usize, ways: usize) -> bool
        ensures { ((result ≡ true → (vec_len self.now.rests ≡ places) × (vec_len self.now.loads ≡ ways))) × ((vec_len self.now.rests ≡ places → vec_len self.now.loads ≡ ways → result ≡ true)) }
    {
        self.rests.len() == places && self.loads.len() == ways
    }
}
