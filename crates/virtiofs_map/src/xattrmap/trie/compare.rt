//! Comparing rows of bytes: whether one begins with another, and how far two agree.

ghost use Rattle.std.specs.Prelude.{◌≡◌, ◌↔◌, ◌≤◌, ◌<◌, ◌+◌, ◌*◌, IsTrue, length, take, drop};
ghost use Rattle.virtiofs_map.specs.FirstRule.{shared};

use crate::xattrmap::le_u64::le_u64_at;

/// Whether two rows of bytes are the same, by their first `N` bytes and their last `N`.
#[inline(always)]
fn same_ends<const N: usize>(one: &[u8], other: &[u8]) -> bool
    requires long { N ≤ length one.now }
    requires short { length one.now ≤ 2 * N }
    requires lengths { length one.now ≡ length other.now }
    ensures { IsTrue result ↔ (one.now ≡ other.now) }
{
    let (Some(first), Some(last)) = (one.first_chunk::<N>(), one.last_chunk::<N>()) else {
        return false;
    };
    let (Some(other_first), Some(other_last)) = (other.first_chunk::<N>(), other.last_chunk::<N>())
    else {
        return false;
    };
    *first == *other_first && *last == *other_last
}

/// Whether two rows of up to 7 bytes are the same.
#[inline(always)]
fn are_few_same(one: &[u8], other: &[u8]) -> bool
    requires few { length one.now < 8 }
    requires lengths { length one.now ≡ length other.now }
    ensures { IsTrue result ↔ (one.now ≡ other.now) }
{
    if one.len() < 4 {
        return are_same_by_one(one, other);
    }
    same_ends::<4>(one, other)
}

/// Whether two rows of 8 to 16 bytes are the same.
#[inline(always)]
fn are_medium_same(one: &[u8], other: &[u8]) -> bool
    requires long { 8 ≤ length one.now }
    requires short { length one.now ≤ 16 }
    requires lengths { length one.now ≡ length other.now }
    ensures { IsTrue result ↔ (one.now ≡ other.now) }
{
    let last = one.len() - 8;
    le_u64_at(one, 0) == le_u64_at(other, 0) && le_u64_at(one, last) == le_u64_at(other, last)
}

/// Whether 16 bytes of two rows are the same, from a place on.
#[inline(always)]
fn are_same_there(one: &[u8], other: &[u8], from: usize) -> bool
    requires one { from + 16 ≤ length one.now }
    requires other { from + 16 ≤ length other.now }
    ensures { IsTrue result
        ↔ (take 16 (drop from one.now) ≡ take 16 (drop from other.now)) }
{
    le_u64_at(one, from) == le_u64_at(other, from)
        && le_u64_at(one, from + 8) == le_u64_at(other, from + 8)
}

/// Whether two rows of 16 bytes or more are the same.
#[inline(always)]
fn are_long_same(one: &[u8], other: &[u8]) -> bool
    requires long { 16 ≤ length one.now }
    requires lengths { length one.now ≡ length other.now }
    ensures { IsTrue result ↔ (one.now ≡ other.now) }
{
    let mut at = 0;
    while one.len() - at > 16 {
        if !are_same_there(one, other, at) {
            return false;
        }
        at += 16;
    }
    are_same_there(one, other, one.len() - 16)
}

/// Whether two rows of bytes are the same.
#[inline(always)]
pub(crate) fn are_same(one: &[u8], other: &[u8]) -> bool
    requires { length one.now ≡ length other.now }
    ensures { IsTrue result ↔ (one.now ≡ other.now) }
{
    if one.len() > 16 {
        return are_long_same(one, other);
    }
    if one.len() < 8 {
        return are_few_same(one, other);
    }
    are_medium_same(one, other)
}

/// Whether two rows of a few bytes are the same.
// (byte by byte, with no call)
#[inline(always)]
fn are_same_by_one(one: &[u8], other: &[u8]) -> bool
    requires { length one.now ≡ length other.now }
    ensures { IsTrue result ↔ (one.now ≡ other.now) }
{
    for at in 0..one.len() {
        if one[at] != other[at] {
            return false;
        }
    }
    true
}

/// How many bytes two rows share at their beginning.
#[tactic(auto, using(crate::proofs::xattrmap::trie::SharedLemmas::shared_ended))]
pub(crate) fn common_prefix_length(one: &[u8], other: &[u8]) -> usize
    ensures { result ≡ shared one.now other.now }
{
    let most = one.len().min(other.len());
    let mut count = 0;
    while count < most && one[count] == other[count] {
        count += 1;
    }
    count
}
