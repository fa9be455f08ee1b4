//! Walks along a trie.

ghost use Rattle.std.specs.Prelude.{◌≡◌, ◌≤◌, true, ℕ, List, length};
ghost use Rattle.virtiofs_map.specs.NodeParts.{IsTrieIn, Passes};
ghost use Rattle.virtiofs_map.specs.FirstRule.{CountsFronts, CountsLookup};
ghost use Rattle.virtiofs_map.specs.Names.{first};
ghost use Rattle.virtiofs_map.specs.Rule.{MappingRule};
ghost use Rattle.virtiofs_map.specs.declared.xattrmap.scopes.Side.{Side};

use crate::steps::Steps;
use crate::xattrmap::trie::node::NO_ANSWER;
use crate::xattrmap::trie::reading::Trie;
use crate::xattrmap::trie::rows::answer_of;

/// Goes from the root along the bytes of a name, as far as labels fit. Gives the answer of the last
/// node, and how many bytes were passed on the way to it.
///
/// A step is counted for the root, and one for each byte that is passed. Where a label does not
/// fit, the bytes that it shares with the name count if the count is to be whole.
#[inline(always)]
fn walk(trie: Trie<'_>, name: &[u8], whole_count: bool, steps: &mut Steps) -> (u64, usize)
    ensures passes { (side : Side) (rules : List MappingRule) (end labels : ℕ) (bytes : List ℕ)
        → IsTrieIn side rules trie.entry.rows.image.now trie.entry.root end labels bytes
        → Passes side rules name.now result.0 result.1 }
    ensures counts { (side : Side) (rules : List MappingRule) (end labels : ℕ) (bytes : List ℕ)
        → IsTrieIn side rules trie.entry.rows.image.now trie.entry.root end labels bytes
        → whole_count ≡ true → CountsFronts side rules name.now steps.old steps.new }
    ensures within { result.1 ≤ length name.now }
{
    let mut row = trie.root(steps);
    let mut rest = name;
    while let Some((child, left)) = trie.rows.enter(row, rest, whole_count, steps) {
        row = child;
        rest = left;
    }
    (answer_of(row), name.len() - rest.len())
}

/// The answer of a name: four times the place of the first rule that fits it and the number of its
/// type, or `NO_ANSWER`. Then how many of its bytes were passed.
#[inline(always)]
pub(crate) fn look_up(trie: Trie<'_>, name: &[u8]) -> (u64, usize)
    ensures passes { (side : Side) (rules : List MappingRule) (end labels : ℕ) (bytes : List ℕ)
        → IsTrieIn side rules trie.entry.rows.image.now trie.entry.root end labels bytes
        → Passes side rules name.now result.0 result.1 }
    ensures within { result.1 ≤ length name.now }
{
    walk(trie, name, false, &mut Steps::new())
}

/// The place of the first rule that fits a name. One step more is counted than the most bytes that
/// the name shares with a pattern. So at least one more is counted than the pattern that decides has
/// bytes, and at most one more than the name and than the longest pattern.
// (a counter of its own stays in a register)
pub(crate) fn first_place(trie: Trie<'_>, name: &[u8], steps: &mut Steps) -> Option<usize>
    ensures first { (side : Side) (rules : List MappingRule) (end labels : ℕ) (bytes : List ℕ)
        → IsTrieIn side rules trie.entry.rows.image.now trie.entry.root end labels bytes
        → result ≡ first side rules name.now }
    ensures steps { (side : Side) (rules : List MappingRule) (end labels : ℕ) (bytes : List ℕ)
        → IsTrieIn side rules trie.entry.rows.image.now trie.entry.root end labels bytes
        → CountsLookup side rules name.now steps.old steps.new }
    ensures fronts { (side : Side) (rules : List MappingRule) (end labels : ℕ) (bytes : List ℕ)
        → IsTrieIn side rules trie.entry.rows.image.now trie.entry.root end labels bytes
        → CountsFronts side rules name.now steps.old steps.new }
{
    let mut counted = Steps::new();
    let (answer, _) = walk(trie, name, true, &mut counted);
    steps.add(&counted);
    if answer == NO_ANSWER {
        None
    } else {
        Some((answer / 4) as usize)
    }
}
