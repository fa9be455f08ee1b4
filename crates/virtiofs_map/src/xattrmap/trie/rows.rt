//! Nodes as rows of bytes.
//!
//! | bytes of a row | what they say |
//! |---|---|
//! | 0 | how many bytes the label has |
//! | 1 | the byte that leads to the node |
//! | 2 to 7 | where the label begins |
//! | 8 | the lowest byte that leads to a child |
//! | 9 | how many places the children have |
//! | 10 to 15 | where the first child stands, counted in eights; the highest bit is set if the children are sparse |
//! | 16 to 23 | the answer |
//!
//! A number of several bytes has its lowest byte first.

ghost use Rattle.std.specs.Prelude.{◌≡◌, ◌++◌, ◌+◌, ◌*◌, ◌%◌, ◌≤◌, ◌<◌, false, ℕ, List, length, drop, take, All, OnOk, MatchOption};
ghost use Rattle.std.specs.List.{flat_map};
ghost use Rattle.virtiofs_map.specs.NodeParts.{HasBytes, IsRowOf, IsSmall, IsSmallIn, placed, row_in, row_of};
ghost use Rattle.virtiofs_map.specs.declared.xattrmap.trie.node.Node.{Node};

use crate::xattrmap::le_u64::{le_u64_at, push_le_u64};
use crate::xattrmap::trie::node::Node;
use std::alloc::{AllocError, Allocator};

/// How many bytes a row has.
pub(crate) const ROW: usize = 24;

/// Where a place shares eight bytes with two bytes, it is multiplied by this.
pub(crate) const SHARE: u64 = 65536;

/// The flag of sparse children, in the number of the first child's place.
pub(crate) const SPARSE: u64 = 140737488355328;

/// The row that begins at a place; `None` where the bytes end before its end.
#[inline(always)]
pub(crate) fn row_at(image: &[u8], from: usize) -> Option<&[u8; 24]>
    requires { from < 9223372036854775808 }
    ensures row { MatchOption result
        (length image.now < from + 24)
        (λ row. (from + 24 ≤ length image.now) × (row.now ≡ take 24 (drop from image.now))) }
{
    if from + ROW > image.len() {
        return None;
    }
    let (rows, _) = image[from..].as_chunks::<24>();
    Some(&rows[0])
}

/// How many bytes the label has.
#[inline(always)]
#[tactic(auto, using(crate::proofs::xattrmap::trie::rows::RowLemmas::byte_of_length))]
pub(crate) fn length_of(row: &[u8; 24]) -> usize
    ensures value { (node : Node) → IsRowOf node row.now → result ≡ node.length }
    ensures few { result < 256 }
{
    row[0] as usize
}

/// The byte that leads to the node.
#[inline(always)]
#[tactic(auto, using(crate::proofs::xattrmap::trie::rows::RowLemmas::byte_of_first))]
pub(crate) fn first_byte_of(row: &[u8; 24]) -> u8
    ensures { (node : Node) → IsRowOf node row.now → result ≡ node.first_byte }
{
    row[1]
}

/// Where the label begins.
#[inline(always)]
#[tactic(auto, using(crate::proofs::xattrmap::trie::rows::RowLemmas::first_u64_of))]
pub(crate) fn label_of(row: &[u8; 24]) -> usize
    ensures value { (node : Node) → IsRowOf node row.now → result ≡ node.label }
    ensures few { result < 281474976710656 }
{
    (le_u64_at(row, 0) / SHARE) as usize
}

/// The lowest byte that leads to a child, where the children are not sparse.
#[inline(always)]
#[tactic(auto, using(crate::proofs::xattrmap::trie::rows::RowLemmas::byte_of_low))]
pub(crate) fn low_byte_of(row: &[u8; 24]) -> u8
    ensures { (node : Node) → IsRowOf node row.now → result ≡ node.low_byte }
{
    row[8]
}

/// How many places the children have.
#[inline(always)]
#[tactic(auto, using(crate::proofs::xattrmap::trie::rows::RowLemmas::byte_of_width))]
pub(crate) fn width_of(row: &[u8; 24]) -> u8
    ensures { (node : Node) → IsRowOf node row.now → result ≡ node.width }
{
    row[9]
}

/// The place of the first child, and the flag where the children are sparse.
#[inline(always)]
pub(crate) fn base_of(row: &[u8; 24]) -> u64
    ensures dense { (node : Node) → IsRowOf node row.now → node.is_sparse ≡ false
        → result ≡ node.base }
    ensures sparse { (node : Node) → IsRowOf node row.now
        → result % 140737488355328 ≡ node.base }
    ensures few { result < 281474976710656 }
{
    le_u64_at(row, 8) / SHARE
}

/// Whether the children are sparse.
#[inline(always)]
#[tactic(auto, using(crate::proofs::xattrmap::trie::rows::RowLemmas::byte_of_flag))]
pub(crate) fn is_sparse(row: &[u8; 24]) -> bool
    ensures { (node : Node) → IsRowOf node row.now → result ≡ node.is_sparse }
{
    row[15] >= 128
}

/// The answer.
#[inline(always)]
#[tactic(auto, using(crate::proofs::xattrmap::trie::rows::RowLemmas::third_u64_of))]
pub(crate) fn answer_of(row: &[u8; 24]) -> u64
    ensures { (node : Node) → IsRowOf node row.now → result ≡ node.answer }
{
    le_u64_at(row, 16)
}

/// A node whose first child has the place that it has in an image, where its trie begins at a place
/// that is counted in eights. A place that is too large becomes another one.
pub(crate) fn placed(node: Node, first: usize) -> Node
    ensures placed { first + 3 * node.base < 18446744073709551616
        → result ≡ placed first 0 node }
    ensures bytes { HasBytes node × HasBytes result }
{
    Node {
        base: first.wrapping_add(node.base.wrapping_mul(3)),
        ..node
    }
}

/// Appends the row of a node. Where a number is too large for it, the row is another one.
pub(crate) fn push_row<A: Allocator>(rows: &mut Vec<u8, A>, node: Node) -> Result<(), AllocError>
    requires { HasBytes node }
    ensures row { OnOk result (IsSmall node → rows.new.items ≡ rows.old.items ++ row_of node) }
    ensures long { OnOk result (length rows.new.items ≡ length rows.old.items + 24) }
{
    let bytes = 256 * node.first_byte as u64 + node.length as u64;
    push_le_u64(
        rows,
        SHARE.wrapping_mul(node.label as u64).wrapping_add(bytes),
    )?;
    let flag = if node.is_sparse { SPARSE } else { 0 };
    let base = SHARE.wrapping_mul((node.base as u64).wrapping_add(flag));
    let width = (node.width as u64).wrapping_mul(256);
    let span = width.wrapping_add(node.low_byte as u64);
    push_le_u64(rows, base.wrapping_add(span))?;
    push_le_u64(rows, node.answer)
}

/// Appends a row with its label in its place in an image, where all patterns begin there.
fn push_placed<A: Allocator>(
    image: &mut Vec<u8, A>,
    row: &[u8],
    labels: usize,
) -> Result<(), AllocError>
    requires row { length row.now ≡ 24 }
    requires labels { labels < 281474976710656 }
    ensures { OnOk result ((first : ℕ) (node : Node) → row.now ≡ row_in first 0 node
        → HasBytes node → IsSmallIn first labels node
        → image.new.items ≡ image.old.items ++ row_in first labels node) }
{
    push_le_u64(image, le_u64_at(row, 0).wrapping_add(SHARE * labels as u64))?;
    image.extend_from_slice(&row[8..])?;
    Ok(())
}

/// Appends rows with their labels in their places in an image, where all patterns begin there.
pub(crate) fn push_rows<A: Allocator>(
    image: &mut Vec<u8, A>,
    rows: &[u8],
    labels: usize,
) -> Result<(), AllocError>
    requires { labels < 281474976710656 }
    ensures { OnOk result ((first : ℕ) (nodes : List Node)
        → rows.now ≡ flat_map (row_in first 0) nodes → All HasBytes nodes
        → All (IsSmallIn first labels) nodes
        → image.new.items ≡ image.old.items ++ flat_map (row_in first labels) nodes) }
{
    for place in 0..rows.len() / ROW {
        let from = place * ROW;
        push_placed(image, &rows[from..from + ROW], labels)?;
    }
    Ok(())
}
