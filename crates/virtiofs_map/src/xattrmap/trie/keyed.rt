//! Patterns are compared by the numbers of their first sixteen bytes, which most often tell them apart.
//! The first byte of a number is the highest. Where a pattern has fewer bytes, zeros stand for them.

ghost use Rattle.std.specs.Cmp.Lexicographic.{slice_cmp};
ghost use Rattle.std.specs.Ordering.{nat_cmp};
ghost use Rattle.std.specs.Prelude.{◌≡◌, drop, slice_index};
ghost use Rattle.virtiofs_map.specs.KeyedParts.{AreBytes, key_of, word_of};

use crate::xattrmap::trie::patterns::Pattern;
use std::cmp::Ordering;

/// The byte at a place; 0 where there is none.
#[inline(always)]
fn byte_at(bytes: &[u8], at: usize) -> u8
    ensures { result ≡ slice_index bytes.now at }
{
    match bytes.get(at) {
        Some(byte) => *byte,
        None => 0,
    }
}

/// The number of the first eight bytes.
#[inline(always)]
fn word_of(bytes: &[u8]) -> u64
    ensures { result ≡ word_of bytes.now }
{
    if let Some(front) = bytes.first_chunk::<8>() {
        return u64::from_be_bytes(*front);
    }
    u64::from_be_bytes([
        byte_at(bytes, 0),
        byte_at(bytes, 1),
        byte_at(bytes, 2),
        byte_at(bytes, 3),
        byte_at(bytes, 4),
        byte_at(bytes, 5),
        byte_at(bytes, 6),
        byte_at(bytes, 7),
    ])
}

/// The numbers of the first eight bytes and of the next eight.
#[inline(always)]
pub(crate) fn words_of(bytes: &[u8]) -> (u64, u64)
    ensures first { result.0 ≡ word_of bytes.now }
    ensures second { result.1 ≡ word_of (drop 8 bytes.now) }
    ensures bytes { AreBytes bytes.now }
{
    let rest = &bytes[8usize.min(bytes.len())..];
    (word_of(bytes), word_of(rest))
}

impl Pattern<'_> {
    /// The order of two patterns: that of their numbers, or else that of their bytes.
    #[inline(always)]
    pub(crate) fn order(&self, other: &Pattern<'_>) -> Ordering
        ensures { result ≡ slice_cmp nat_cmp (key_of self.now) (key_of other.now) }
    {
        if self.first != other.first {
            return self.first.cmp(&other.first);
        }
        if self.second != other.second {
            return self.second.cmp(&other.second);
        }
        self.bytes.cmp(&other.bytes)
    }
}
