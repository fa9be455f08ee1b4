//! The making of a trie's nodes, level by level.

ghost use Rattle.std.specs.Prelude.{◌≡◌, ◌≢◌, ◌<◌, ◌≤◌, ◌+◌, ◌-◌, ℕ, List, take, length, slice_get, slice_index, All, Some, IfOk, OnOk};
ghost use Rattle.virtiofs_map.specs.NodeParts.{AreFew, ArePatterns, AreTrieRows};
ghost use Rattle.virtiofs_map.specs.TrieBuildParts.{text, pattern_at, AreReady, IsLeast, IsUpto, IsPatternRange};
ghost use Rattle.virtiofs_map.specs.TrieBuildParts.{AreAdded, GoOnFrom, IsExpanded, IsGroup, IsKid, IsRangeOrHole};
ghost use Rattle.virtiofs_map.specs.TrieBuildParts.{next_of, path_of_range, texts_of};
ghost use Rattle.virtiofs_map.specs.PatternTrie.{are_sparse, next_bytes};
ghost use Rattle.virtiofs_map.specs.Rule.{MappingRule};
ghost use Rattle.virtiofs_map.specs.declared.xattrmap.scopes.Side.{Side};
ghost use Rattle.virtiofs_map.specs.declared.xattrmap.trie.build.PatternRange.{PatternRange};

use crate::xattrmap::trie::node::{NO_ANSWER, Node};
use crate::xattrmap::trie::patterns::Pattern;
use crate::xattrmap::trie::rows::{placed, push_row};
use std::alloc::{AllocError, Allocator};

/// The patterns that begin with the path of a node; they stand side by side. A hole between
/// nodes has none of them.
#[derive(Clone, Copy)]
pub(crate) struct PatternRange {
    /// The place of the first of these patterns.
    low: usize,
    /// The place after the last of these patterns.
    high: usize,
    /// How many bytes the path has.
    depth: usize,
    /// The answer of the path without its last byte and label.
    answer: u64,
    /// How many of the path's bytes are the label.
    length: u8,
    /// The byte that leads to the node.
    first_byte: u8,
}

/// An unused place between children, for a byte that leads nowhere.
const HOLE: PatternRange = PatternRange {
    low: 0,
    high: 0,
    depth: 1,
    answer: NO_ANSWER,
    length: 0,
    first_byte: 0,
};

/// The pattern at a place.
#[tactic(auto, using(std::proofs::lemmas::List::get_or_read))]
fn pattern_at<'p, 'b>(patterns: &'p [Pattern<'b>], at: usize) -> &'p Pattern<'b>
    requires { at < length patterns.now }
    ensures { result.now ≡ pattern_at patterns.now at }
{
    &patterns[at]
}

/// The byte of a pattern at a depth; 0 where the pattern has ended.
fn byte_of(patterns: &[Pattern<'_>], at: usize, depth: usize) -> u8
    requires { at < length patterns.now }
    ensures { result ≡ slice_index (text patterns.now at) depth }
{
    match pattern_at(patterns, at).bytes.get(depth) {
        Some(byte) => *byte,
        None => 0,
    }
}

/// How many bytes two patterns share from a depth on, but no more than a label can have.
fn shared(one: &[u8], other: &[u8], depth: usize) -> usize
    requires { depth ≤ length one.now }
    ensures small { result < 256 }
    ensures within { depth + result ≤ length one.now }
    ensures same { take depth one.now ≡ take depth other.now
        → take (depth + result) one.now ≡ take (depth + result) other.now }
    ensures stops { result < 255 → depth + result < length one.now
        → depth + result < length other.now
        → slice_index one.now (depth + result) ≢ slice_index other.now (depth + result) }
{
    let most = (one.len().min(other.len()).max(depth) - depth).min(255);
    let mut count = 0;
    while count < most && one[depth + count] == other[depth + count] {
        count += 1;
    }
    count
}

/// Where the patterns end that have the same byte at a depth as the first one. The steps of the
/// search double, and are then halved.
fn group_end(patterns: &[Pattern<'_>], low: usize, high: usize, depth: usize) -> usize
    requires some { low < high }
    requires within { high ≤ length patterns.now }
    requires rising { (i j : ℕ) → low ≤ i → i ≤ j → j < high
        → slice_index (text patterns.now i) depth ≤ slice_index (text patterns.now j) depth }
    ensures more { low < result }
    ensures upto { result ≤ high }
    ensures same { (i : ℕ) → low ≤ i → i < result
        → slice_index (text patterns.now i) depth ≡ slice_index (text patterns.now low) depth }
    ensures other { result < high
        → slice_index (text patterns.now result) depth
        ≢ slice_index (text patterns.now low) depth }
{
    let byte = byte_of(patterns, low, depth);
    let mut last = low;
    let mut step = 1;
    while step < high - last && byte_of(patterns, last + step, depth) == byte {
        last += step;
        step = last - low + 1;
    }
    let mut end = if step < high - last {
        last + step
    } else {
        high
    };
    while end - last > 1 {
        let middle = last + (end - last) / 2;
        if byte_of(patterns, middle, depth) == byte {
            last = middle;
        } else {
            end = middle;
        }
    }
    end
}

/// The place of the first pattern of a range that is longer than the range's path; and the least
/// answer of the patterns that end within the path.
fn ended(patterns: &[Pattern<'_>], range: PatternRange) -> (usize, u64)
    requires ready { AreReady usize.MAX patterns.now }
    requires range { IsPatternRange patterns.now range }
    ensures upto { result.0 ≤ range.high }
    ensures ended { (i : ℕ) → range.low ≤ i → i < result.0
        → length (text patterns.now i) ≡ range.depth }
    ensures on { result.0 < range.high → GoOnFrom patterns.now range result.0 }
    ensures least { IsLeast patterns.now (IsUpto patterns.now range) result.1 }
{
    let mut answer = range.answer;
    for at in range.low..range.high {
        let pattern = pattern_at(patterns, at);
        if pattern.bytes.len() != range.depth {
            return (at, answer);
        }
        answer = answer.min(pattern.answer);
    }
    (range.high, answer)
}

/// The child of a range that has the patterns between two places, all those that go on with one byte.
fn child(
    patterns: &[Pattern<'_>],
    range: PatternRange,
    low: usize,
    high: usize,
    answer: u64,
) -> PatternRange
    requires within { range.high ≤ length patterns.now }
    requires long { range.depth < length (text patterns.now low) }
    requires group { IsGroup patterns.now range low high }
    ensures low { result.low ≡ low }
    ensures high { result.high ≡ high }
    ensures answer { result.answer ≡ answer }
    ensures kid { IsKid patterns.now range result }
{
    let first = pattern_at(patterns, low).bytes;
    let depth = range.depth + 1;
    let length = if high - low == 1 {
        (first.len() - depth).min(255)
    } else {
        shared(first, pattern_at(patterns, high - 1).bytes, depth)
    };
    PatternRange {
        low,
        high,
        depth: depth + length,
        answer,
        length: length as u8,
        first_byte: byte_of(patterns, low, range.depth),
    }
}

/// Whether the children of a range are so far apart that they stand side by side without holes: the
/// bytes from the lowest to the highest are more than 4, and 2 more for each child.
fn are_children_sparse(patterns: &[Pattern<'_>], range: PatternRange, from: usize) -> bool
    requires ready { AreReady usize.MAX patterns.now }
    requires range { IsPatternRange patterns.now range }
    requires on { GoOnFrom patterns.now range from }
    ensures { result
        ≡ are_sparse (next_bytes (texts_of patterns.now) (path_of_range patterns.now range)) }
{
    let lowest = byte_of(patterns, from, range.depth);
    let highest = byte_of(patterns, range.high - 1, range.depth);
    let span = usize::from(highest.max(lowest) - lowest) + 1;
    let mut low = from;
    let mut count = 0;
    while low < range.high {
        low = group_end(patterns, low, range.high, range.depth);
        count += 1;
    }
    span > 2 * count + 4
}

/// Appends the children of a range: one for each byte with which its patterns from a place on go
/// on.
#[tactic(auto, using(crate::proofs::xattrmap::trie::build::RangePathLemmas::row))]
fn add_children<A: Allocator>(
    patterns: &[Pattern<'_>],
    ranges: &mut Vec<PatternRange, A>,
    range: PatternRange,
    from: usize,
    answer: u64,
    is_sparse: bool,
) -> Result<(), AllocError>
    requires ready { AreReady usize.MAX patterns.now }
    requires range { IsPatternRange patterns.now range }
    requires on { GoOnFrom patterns.now range from }
    requires least { IsLeast patterns.now (IsUpto patterns.now range) answer }
    requires sparse { is_sparse
        ≡ are_sparse (next_bytes (texts_of patterns.now) (path_of_range patterns.now range)) }
    ensures { OnOk result (AreAdded patterns.now ranges.old.items ranges.new.items range
        (next_of patterns.now range from) is_sparse) }
{
    let base = ranges.len();
    let lowest = byte_of(patterns, from, range.depth);
    let mut low = from;
    while low < range.high {
        if !is_sparse {
            let gap = byte_of(patterns, low, range.depth) - lowest;
            ranges.resize(base + usize::from(gap), HOLE)?;
        }
        let high = group_end(patterns, low, range.high, range.depth);
        ranges.push(child(patterns, range, low, high, answer))?;
        low = high;
    }
    Ok(())
}

/// The node of a range, whose children are appended to the ranges.
#[tactic(auto, using(crate::proofs::xattrmap::trie::build::TrieBuildLemmas::range_of))]
fn node_of<A: Allocator>(
    patterns: &[Pattern<'_>],
    ranges: &mut Vec<PatternRange, A>,
    range: PatternRange,
) -> Result<Node, AllocError>
    requires ready { AreReady usize.MAX patterns.now }
    requires place { IsRangeOrHole patterns.now range }
    ensures { IfOk result (IsExpanded patterns.now ranges.old.items ranges.new.items range) }
{
    let base = ranges.len();
    let bare = Node {
        answer: range.answer,
        label: 0,
        length: range.length,
        base,
        width: 0,
        low_byte: 1,
        first_byte: range.first_byte,
        is_sparse: false,
    };
    if range.low == range.high {
        return Ok(bare);
    }
    let (from, answer) = ended(patterns, range);
    let first = pattern_at(patterns, range.low);
    let label = first.start + (range.depth - range.length as usize);
    if from == range.high {
        return Ok(Node {
            answer,
            label,
            ..bare
        });
    }
    let low_byte = byte_of(patterns, from, range.depth);
    let is_sparse = are_children_sparse(patterns, range, from);
    add_children(patterns, ranges, range, from, answer, is_sparse)?;
    let width = ranges.len() - base;
    Ok(Node {
        answer,
        label,
        width,
        low_byte,
        is_sparse,
        ..bare
    })
}

/// Makes `rows` those of a trie of these patterns, which stand among `bytes`. The trie begins at a
/// place that is counted in eights, and labels are counted from the first of the bytes. What `rows`
/// and `ranges` had makes no difference.
pub(crate) fn build_trie<A: Allocator>(
    rows: &mut Vec<u8, A>,
    patterns: &[Pattern<'_>],
    bytes: &[u8],
    ranges: &mut Vec<PatternRange, A>,
    first: usize,
) -> Result<(), AllocError>
    requires { AreReady (length bytes.now) patterns.now }
    ensures { OnOk result ((side : Side) (rules : List MappingRule)
        → ArePatterns side rules bytes.now (length rules) patterns.now → AreFew rules
        → AreTrieRows side rules bytes.now rows.new.items first) }
{
    rows.clear();
    ranges.clear();
    ranges.push(PatternRange {
        low: 0,
        high: patterns.len(),
        depth: 0,
        answer: NO_ANSWER,
        length: 0,
        first_byte: 0,
    })?;
    let mut at = 0;
    while at < ranges.len() {
        let range = ranges[at];
        let node = node_of(patterns, ranges, range)?;
        push_row(rows, placed(node, first))?;
        at += 1;
    }
    Ok(())
}
