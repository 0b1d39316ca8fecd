// Looking up a key in rows that stand by key, in one key the newest first.
ghost use Rattle.std.specs.Prelude.{◌≡◌, ◌≤◌, ℕ, true, false, List, length};
ghost use Rattle.std.specs.Option.{option_copied};
ghost use Rattle.std.specs.List.Sorted.{IsPartitionPoint};
ghost use Rattle.sv_model.specs.Order.{OrderedBy, is_ahead, first_upto, key_of_kept, end_of_kept, key_of_numbered, number_of};

use crate::keys::Key;
use crate::writes::{Kept, Numbered};
use std::cmp::Ordering;

/// What stands in an order by key and rank.
pub trait Ranked {
    ghost key: { Self → List ℕ };

    ghost rank: { Self → ℕ };

    fn key(&self) -> &Key
        ensures { result.now ≡ key self.now };

    fn rank(&self) -> u64
        ensures { result ≡ rank self.now };
}

impl Ranked for Kept {
    ghost key = { key_of_kept };

    ghost rank = { end_of_kept };

    fn key(&self) -> &Key {
        &self.row.key
    }

    fn rank(&self) -> u64 {
        self.end
    }
}

impl Ranked for Numbered {
    ghost key = { key_of_numbered };

    ghost rank = { number_of };

    fn key(&self) -> &Key {
        &self.row.key
    }

    fn rank(&self) -> u64 {
        self.number
    }
}

/// Whether the item stands ahead of the key's items whose rank is at most this.
fn is_ahead<T: Ranked>(item: &T, key: &Key, upto: u64) -> bool
    ensures { result ≡ is_ahead T.key T.rank key.now upto item.now }
{
    match item.key().cmp(key) {
        Ordering::Less => true,
        Ordering::Equal => item.rank() > upto,
        Ordering::Greater => false,
    }
}

/// How many items stand ahead of the key's items whose rank is at most this.
fn ahead_of<T: Ranked>(items: &[T], key: &Key, upto: u64) -> usize
    ensures bound { result ≤ length items.now }
    ensures parted { OrderedBy T.key T.rank items.now → IsPartitionPoint (λ x. is_ahead T.key T.rank key.now upto x ≡ true) (λ x. is_ahead T.key T.rank key.now upto x ≡ false) items.now result }
{
    items.partition_point(|item| is_ahead(item, key, upto))
}

/// The first item of the key whose rank is at most this; none where there is none. By binary search, so it says
/// nothing of items in another order. Takes no memory.
pub fn find_upto<'a, T: Ranked>(items: &'a [T], key: &Key, upto: u64) -> Option<&'a T>
    ensures { OrderedBy T.key T.rank items.now → option_copied result ≡ first_upto T.key T.rank key.now upto items.now }
{
    let at = ahead_of(items, key, upto);
    if at == items.len() {
        return None;
    }
    let item = &items[at];
    if *key == *item.key() {
        Some(item)
    } else {
        None
    }
}
