//! What the rules of a map have of one kind, such as their keys, in the order of the bytes.

ghost use Rattle.std.specs.List.Sorted.{IsPermutation};
ghost use Rattle.std.specs.Prelude.{◌≡◌, ◌≢◌, ◌++◌, List, All, IfOk, Some};
ghost use Rattle.virtiofs_map.specs.AuditParts.{AreOrdered, part_of, parts};
ghost use Rattle.virtiofs_map.specs.NamesImage.{IsMapOf};
ghost use Rattle.virtiofs_map.specs.Rule.{HasNoZero, MappingRule};
ghost use Rattle.virtiofs_map.specs.RuleParts.{rule_meant};

use crate::xattrmap::rules::RuleRef;
use crate::xattrmap::{Side, XattrMapRef, XattrName, XattrNameBuf};
use std::alloc::{AllocError, Allocator};

/// What an audit takes from a rule.
#[derive(Clone, Copy)]
pub(crate) enum Part {
    /// The pattern of a rule for that side.
    Pattern(Side),
    /// What a rule for that side puts before a name or takes off it.
    Added(Side),
    /// What each name of the host begins with that passes by a rule for the client: what the rule
    /// puts before a name, and then its key.
    Passed,
}

/// A name of these bytes, one after the other, in memory of its own; `None` where one of them is
/// zero.
fn joined<A: Allocator + Copy>(
    alloc: A,
    added: &[u8],
    rest: &[u8],
) -> Result<Option<XattrNameBuf<A>>, AllocError>
    ensures { IfOk result (λ found. All (λ byte. byte ≢ 0) added.now
        → All (λ byte. byte ≢ 0) rest.now → found ≡ Some (added.now ++ rest.now)) }
{
    let (Some(rest), Some(added)) = (XattrName::new(rest), XattrName::new(added)) else {
        return Ok(None);
    };
    Ok(Some(rest.prefixed_with(alloc, added)?))
}

/// That part of a rule, where it has one.
fn part_of<A: Allocator + Copy>(
    alloc: A,
    rule: RuleRef<'_>,
    part: Part,
) -> Result<Option<XattrNameBuf<A>>, AllocError>
    ensures { IfOk result (λ found. HasNoZero (rule_meant rule.entry)
        → found ≡ part_of part (rule_meant rule.entry)) }
{
    let side = match part {
        Part::Pattern(side) | Part::Added(side) => side,
        Part::Passed => Side::Client,
    };
    if !rule.acts_on(side) {
        return Ok(None);
    }
    match (part, rule.added_prefix()) {
        (Part::Pattern(side), _) => joined(alloc, &[], rule.pattern(side)),
        (Part::Added(_), Some(added)) => joined(alloc, added, &[]),
        (Part::Passed, Some(added)) => joined(alloc, added, rule.key),
        (_, None) => Ok(None),
    }
}

/// That part of each rule which has one, in the order of the bytes. The patterns of a map stand one
/// after another, so those of other bytes are left out once they have more bytes than these.
pub(crate) fn gathered<A: Allocator + Copy>(
    alloc: A,
    map: XattrMapRef<'_>,
    part: Part,
) -> Result<Vec<XattrNameBuf<A>, A>, AllocError>
    ensures parts { IfOk result (λ names. (rules : List MappingRule) → IsMapOf rules map.entry
        → IsPermutation (parts part rules) names.items) }
    ensures ordered { IfOk result (λ names. AreOrdered names.items) }
{
    let mut names = Vec::new(alloc);
    let mut left = map.bytes.len();
    for place in 0..map.len() {
        let Some(rule) = map.rule(place) else {
            continue;
        };
        let count = rule.key.len() + rule.prepend.len();
        if count > left {
            continue;
        }
        left -= count;
        let Some(name) = part_of(alloc, rule, part)? else {
            continue;
        };
        names.push(name)?;
    }
    names.sort_unstable_by(|one, other| one.as_name().bytes.cmp(&other.as_name().bytes));
    Ok(names)
}
