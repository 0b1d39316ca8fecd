// A table in memory.
ghost use Rattle.std.specs.Prelude.{◌≡◌, ◌^◌, ◌-◌};
ghost use Rattle.std.specs.Option.{option_copied, option_map};
ghost use Rattle.sv_model.specs.Order.{OrderedBy, first_upto, key_of_kept, end_of_kept};

use crate::cuts::Bottom;
use crate::item_list::Items;
use crate::keys::Key;
use crate::searches::find_upto;
use crate::writes::{Kept, Op};

/// A table: of each key and each interval between its cuts the newest write, among a range of a family's writes.
#[derive(Drop, Debug)]
pub struct Table {
    /// The table covers the writes `from + 1` to `to` of its family.
    pub from: u64,
    pub to: u64,
    pub bottom: Bottom,
    /// By key, and in one key the greatest end first.
    pub rows: Items<Kept>,
}

impl Table {
    /// What the first row of the key does; none where the table has no row of it. By binary search, so it says
    /// nothing of a table whose rows stand in another order. Takes no memory.
    pub fn find(&self, key: &Key) -> Option<&Op>
        ensures { OrderedBy key_of_kept end_of_kept self.now.rows → option_copied result ≡ option_map (λ r. r.row.op) (first_upto key_of_kept end_of_kept key.now (2 ^ 64 - 1) self.now.rows) }
    {
        self.find_at(key, u64::MAX)
    }

    /// What the first row of the key does whose end is at most the cut; none where there is no such row. Takes no
    /// memory.
    pub fn find_at(&self, key: &Key, cut: u64) -> Option<&Op>
        ensures { OrderedBy key_of_kept end_of_kept self.now.rows → option_copied result ≡ option_map (λ r. r.row.op) (first_upto key_of_kept end_of_kept key.now cut self.now.rows) }
    {
        match find_upto(self.rows.as_slice(), key, cut) {
            None => None,
            Some(kept) => Some(&kept.row.op),
        }
    }
}
