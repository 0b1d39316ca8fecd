// The order of keys. Their first bytes are compared as numbers, which is the shortest way to an answer.
ghost use Rattle.std.specs.Prelude.{◌≡◌, ◌≤◌, ◌+◌, length, min, take, drop};
ghost use Rattle.std.specs.Cmp.Lexicographic.{slice_cmp};
ghost use Rattle.std.specs.Ordering.{nat_cmp};
ghost use Rattle.sv_table.specs.Words.{spelled};

use std::cmp::Ordering;

/// The number that the eight bytes from there on spell, the greatest first.
#[inline(always)]
fn word_at(bytes: &[u8], at: usize) -> u64
    requires { at + 8 ≤ length bytes.now }
    ensures { result ≡ spelled 0 (take 8 (drop at bytes.now)) }
{
    u64::from_be_bytes([
        bytes[at],
        bytes[at + 1],
        bytes[at + 2],
        bytes[at + 3],
        bytes[at + 4],
        bytes[at + 5],
        bytes[at + 6],
        bytes[at + 7],
    ])
}

/// The number that the four bytes from there on spell, the greatest first.
#[inline(always)]
fn half_at(bytes: &[u8], at: usize) -> u32
    requires { at + 4 ≤ length bytes.now }
    ensures { result ≡ spelled 0 (take 4 (drop at bytes.now)) }
{
    u32::from_be_bytes([bytes[at], bytes[at + 1], bytes[at + 2], bytes[at + 3]])
}

/// The order of bytes of which `both` have eight to sixteen: by two words, which may overlap, and then by the lengths.
#[inline(always)]
fn order_words(a: &[u8], b: &[u8], both: usize) -> Ordering
    requires shorter { both ≡ min (length a.now) (length b.now) }
    requires least { 8 ≤ both }
    requires greatest { both ≤ 16 }
    ensures { result ≡ slice_cmp nat_cmp a.now b.now }
{
    let (x, y) = (word_at(a, 0), word_at(b, 0));
    if x != y {
        return x.cmp(&y);
    }
    let (z, w) = (word_at(a, both - 8), word_at(b, both - 8));
    if z != w {
        return z.cmp(&w);
    }
    a.len().cmp(&b.len())
}

/// The same where both have four to eight.
#[inline(always)]
fn order_halves(a: &[u8], b: &[u8], both: usize) -> Ordering
    requires shorter { both ≡ min (length a.now) (length b.now) }
    requires least { 4 ≤ both }
    requires greatest { both ≤ 8 }
    ensures { result ≡ slice_cmp nat_cmp a.now b.now }
{
    let (x, y) = (half_at(a, 0), half_at(b, 0));
    if x != y {
        return x.cmp(&y);
    }
    let (z, w) = (half_at(a, both - 4), half_at(b, both - 4));
    if z != w {
        return z.cmp(&w);
    }
    a.len().cmp(&b.len())
}

/// The order of these bytes, a prefix first.
#[inline(always)]
pub(crate) fn order_bytes(a: &[u8], b: &[u8]) -> Ordering
    ensures { result ≡ slice_cmp nat_cmp a.now b.now }
{
    let both = a.len().min(b.len());
    if both >= 8 && both <= 16 {
        return order_words(a, b, both);
    }
    if both >= 4 && both < 8 {
        return order_halves(a, b, both);
    }
    a.cmp(b)
}
