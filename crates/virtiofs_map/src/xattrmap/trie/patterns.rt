//! The patterns of a side, in the order of their bytes.

ghost use Rattle.std.specs.Prelude.{◌≡◌, false, length, slice_get, All, IfNone, IfSome, OnOk, Some};
ghost use Rattle.virtiofs_map.specs.NodeParts.{AreFew, ArePatterns, IsPatternAt};
ghost use Rattle.virtiofs_map.specs.FirstRule.{acts};
ghost use Rattle.virtiofs_map.specs.Rule.{HasNoZero, MappingRule};
ghost use Rattle.virtiofs_map.specs.TrieBuildParts.{AreReady, IsReady};

use crate::xattrmap::rules::Rules;
use crate::xattrmap::scopes::Side;
use crate::xattrmap::trie::keyed::words_of;
use std::alloc::{AllocError, Allocator};

/// A pattern of a rule.
#[derive(Clone, Copy)]
pub(crate) struct Pattern<'a> {
    /// The bytes of the pattern.
    pub(crate) bytes: &'a [u8],
    /// Where the pattern begins among the bytes of all patterns.
    pub(crate) start: usize,
    /// Four times the place of the rule, and the number of its type.
    pub(crate) answer: u64,
    /// The number of the first eight bytes.
    pub(crate) first: u64,
    /// The number of the next eight bytes.
    pub(crate) second: u64,
}

/// The pattern of the rule at a place; `None` where that rule does not act on the side.
fn pattern_at<A: Allocator>(rules: &Rules<A>, place: usize, side: Side) -> Option<Pattern<'_>>
    requires few { AreFew rules.now.list }
    requires plain { All HasNoZero rules.now.list }
    ensures found { IfSome result (IsPatternAt side rules.now.list rules.now.bytes place) }
    ensures ready { IfSome result (IsReady (length rules.now.bytes)) }
    ensures none { IfNone result ((rule : MappingRule)
        → slice_get rules.now.list place ≡ Some rule → acts side rule ≡ false) }
{
    let rule = rules.get(place)?;
    let span = rules.span(place)?;
    if !rule.acts_on(side) {
        return None;
    }
    let start = match side {
        Side::Client => span.key,
        Side::Server => span.prepend,
    };
    let bytes = rule.pattern(side);
    let (first, second) = words_of(bytes);
    Some(Pattern {
        bytes,
        start,
        answer: 4 * place as u64 + rule.kind.number(),
        first,
        second,
    })
}

/// Fills `patterns` with those of the rules that act on a side, in the order of their bytes.
pub(crate) fn fill_patterns<'r, A: Allocator>(
    patterns: &mut Vec<Pattern<'r>, A>,
    rules: &'r Rules<A>,
    side: Side,
) -> Result<(), AllocError>
    requires few { AreFew rules.now.list }
    requires plain { All HasNoZero rules.now.list }
    ensures patterns { OnOk result
        (ArePatterns side rules.now.list rules.now.bytes (length rules.now.list) patterns.new.items) }
    ensures ready { OnOk result (AreReady (length rules.now.bytes) patterns.new.items) }
{
    patterns.clear();
    for place in 0..rules.len() {
        let Some(pattern) = pattern_at(rules, place, side) else {
            continue;
        };
        patterns.push(pattern)?;
    }
    patterns.sort_unstable_by(|one, other| one.order(other));
    Ok(())
}
