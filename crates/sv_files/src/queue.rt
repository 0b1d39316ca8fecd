// A queue of numbers in ascending order, in which the shorter side moves.
ghost use Rattle.std.specs.Prelude.{◌≡◌, ◌≢◌, ◌+◌, ◌<◌, ◌≤◌, ◌↔◌, ℕ, IsTrue, take, if◌then◌else◌};
ghost use Rattle.std.specs.List.Sorted.{IsStrictlyIncreasing};
ghost use Rattle.std.specs.VecDeque.{deque_len, deque_capacity};
ghost use Rattle.sv_model.specs.Lists.{In};

use std::collections::VecDeque;

// Puts a number among the others; there is room for it.
pub(crate) fn put(queue: &mut VecDeque<u64>, number: u64)
    requires rising { IsStrictlyIncreasing queue.old.items }
    requires new { In number queue.old.items → ⊥ }
    requires room { deque_len queue.old < deque_capacity queue.old }
    ensures rising { IsStrictlyIncreasing queue.new.items }
    ensures has { In number queue.new.items }
    ensures others { (n : ℕ) → n ≢ number → (In n queue.new.items ↔ In n queue.old.items) }
    ensures len { deque_len queue.new ≡ deque_len queue.old + 1 }
    ensures capacity { deque_capacity queue.old ≤ deque_capacity queue.new }
{
    if let Err(at) = queue.binary_search(&number) {
        let _ = queue.insert(at, number);
    }
}

// Takes a number out.
pub(crate) fn take(queue: &mut VecDeque<u64>, number: u64)
    requires rising { IsStrictlyIncreasing queue.old.items }
    requires has { In number queue.old.items }
    ensures rising { IsStrictlyIncreasing queue.new.items }
    ensures gone { In number queue.new.items → ⊥ }
    ensures others { (n : ℕ) → n ≢ number → (In n queue.new.items ↔ In n queue.old.items) }
    ensures len { deque_len queue.new + 1 ≡ deque_len queue.old }
    ensures capacity { deque_capacity queue.new ≡ deque_capacity queue.old }
{
    if let Ok(at) = queue.binary_search(&number) {
        let _ = queue.remove(at);
    }
}

// The number, which stood in the queue or did not, does so now or does not.
pub(crate) fn set(queue: &mut VecDeque<u64>, number: u64, was: bool, now: bool)
    requires rising { IsStrictlyIncreasing queue.old.items }
    requires was { IsTrue was ↔ In number queue.old.items }
    requires room { deque_len queue.old + (if now then 1 else 0) ≤ deque_capacity queue.old + (if was then 1 else 0) }
    ensures rising { IsStrictlyIncreasing queue.new.items }
    ensures now { IsTrue now ↔ In number queue.new.items }
    ensures others { (n : ℕ) → n ≢ number → (In n queue.new.items ↔ In n queue.old.items) }
    ensures len { deque_len queue.new + (if was then 1 else 0) ≡ deque_len queue.old + (if now then 1 else 0) }
    ensures capacity { deque_capacity queue.old ≤ deque_capacity queue.new }
{
    if now && !was {
        put(queue, number);
    }
    if was && !now {
        take(queue, number);
    }
}

// Whether the number stands in the queue.
pub(crate) fn has(queue: &VecDeque<u64>, number: u64) -> bool
    requires { IsStrictlyIncreasing queue.now.items }
    ensures { IsTrue result ↔ In number queue.now.items }
{
    queue.binary_search(&number).is_ok()
}

// How many numbers are below this one.
pub(crate) fn count_below(queue: &VecDeque<u64>, bound: u64) -> usize
    requires { IsStrictlyIncreasing queue.now.items }
    ensures within { result ≤ deque_len queue.now }
    ensures below { (n : ℕ) → (In n (take result queue.now.items) ↔ (In n queue.now.items × (n < bound))) }
{
    match queue.binary_search(&bound) {
        Ok(at) => at,
        Err(at) => at,
    }
}
