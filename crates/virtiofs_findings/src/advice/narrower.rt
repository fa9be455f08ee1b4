//! Whether what other options set up lets guests do no more than what the given ones do.
ghost use Rattle.std.specs.Prelude.{◌≡◌, ◌↔◌, IfOk, IsTrue, length};
ghost use Rattle.std.specs.List.{AllZip};
ghost use Rattle.virtiofs_map.specs.RuleParts.{rule_meant};
ghost use Rattle.virtiofs_findings.specs.Narrower.{BothOrNone, NarrowerKind, NarrowerRules, NarrowerNames, NarrowerSet, SameKind, SameRules, SameSet, deny_all};
ghost use Rattle.virtiofs_findings.specs.FindingParts.{EndsAt, IsSameAt};

use crate::advice::mended::{Unwanted, mended_ids};
use crate::setup::{IdSetUp, NamesSetUp, SetUp};
use std::alloc::{AllocError, Allocator};
use virtiofs_map::cmdline::IdMap as Spec;
use virtiofs_map::xattrmap::{RuleKind, RuleRef, Side, XattrMap};

/// Whether two lists of specifications are the same.
fn are_same(one: &[Spec], other: &[Spec]) -> bool
    ensures { IsTrue result ↔ (one.now ≡ other.now) }
{
    if one.len() != other.len() {
        return false;
    }
    for place in 0..one.len() {
        if one[place] != other[place] {
            return false;
        }
    }
    true
}

/// Whether the other specifications are the given ones, or these with ids forbidden.
fn narrows_ids<A: Allocator + Copy>(
    alloc: A,
    unwanted: Unwanted,
    given: &IdSetUp<A>,
    other: &IdSetUp<A>,
) -> Result<bool, AllocError>
    ensures narrower { IfOk result (λ yes. IsTrue yes → NarrowerKind given.now other.now) }
    ensures same { IfOk result (λ yes. SameKind given.now other.now → IsTrue yes) }
{
    if are_same(other.map.specs(), given.map.specs()) {
        return Ok(true);
    }
    let mended = mended_ids(alloc, unwanted, given)?;
    Ok(are_same(other.map.specs(), mended.as_slice()))
}

/// The same where both are there, and whether neither is.
fn narrows_kind<A: Allocator + Copy>(
    alloc: A,
    unwanted: Unwanted,
    given: &Option<IdSetUp<A>>,
    other: &Option<IdSetUp<A>>,
) -> Result<bool, AllocError>
    ensures narrower { IfOk result (λ yes. IsTrue yes
        → BothOrNone NarrowerKind given.now other.now) }
    ensures same { IfOk result (λ yes. BothOrNone SameKind given.now other.now → IsTrue yes) }
{
    match (given, other) {
        (Some(given), Some(other)) => narrows_ids(alloc, unwanted, given, other),
        (None, None) => Ok(true),
        _ => Ok(false),
    }
}

/// Whether the rules at these places are the same.
fn is_same_at<A: Allocator>(
    given: &XattrMap<A>,
    place: usize,
    other: &XattrMap<A>,
    at: usize,
) -> bool
    ensures { IsTrue result ↔ IsSameAt given.now place other.now at }
{
    let (Some(rule), Some(another)) = (given.rule(place), other.rule(at)) else {
        return false;
    };
    rule.is_same(another)
}

/// Whether the rule denies each name, and hides each.
fn denies_all(rule: RuleRef<'_>) -> bool
    ensures { IsTrue result → rule_meant rule.entry ≡ deny_all }
{
    rule.kind == RuleKind::Bad
        && rule.acts_on(Side::Client)
        && rule.acts_on(Side::Server)
        && rule.key.is_empty()
        && rule.prepend.is_empty()
}

/// Whether no rule stands at that place or behind it, or only one that denies all.
fn ends_at<A: Allocator>(other: &XattrMap<A>, at: usize) -> bool
    ensures ends { IsTrue result → EndsAt other.now at }
    ensures past { length other.now ≡ at → IsTrue result }
{
    if at == other.rule_count() {
        return true;
    }
    let Some(rule) = other.rule(at) else {
        return false;
    };
    at + 1 == other.rule_count() && denies_all(rule)
}

/// Whether the other rules are those of the given ones, in their order, but for some that decide no
/// name, and one at the end that denies all.
fn narrows_rules<A: Allocator>(given: &XattrMap<A>, other: &XattrMap<A>) -> bool
    ensures narrower { IsTrue result → NarrowerNames given.now other.now }
    ensures same { other.now ≡ given.now → IsTrue result }
{
    let mut at = 0;
    for place in 0..given.rule_count() {
        if is_same_at(given, place, other, at) {
            at += 1;
        } else if given.decides(place) {
            return false;
        }
    }
    ends_at(other, at)
}

/// The same where both are there, and whether neither is.
fn narrows_names<A: Allocator>(given: &Option<NamesSetUp<A>>, other: &Option<NamesSetUp<A>>) -> bool
    ensures narrower { IsTrue result → BothOrNone NarrowerRules given.now other.now }
    ensures same { BothOrNone SameRules given.now other.now → IsTrue result }
{
    match (given, other) {
        (Some(given), Some(other)) => narrows_rules(&given.map, &other.map),
        (None, None) => true,
        _ => false,
    }
}

/// Whether what the options of one guest set up only takes away.
fn is_narrower<A: Allocator + Copy>(
    alloc: A,
    unwanted: Unwanted,
    given: &SetUp<A>,
    other: &SetUp<A>,
) -> Result<bool, AllocError>
    ensures narrower { IfOk result (λ yes. IsTrue yes → NarrowerSet given.now other.now) }
    ensures same { IfOk result (λ yes. SameSet given.now other.now → IsTrue yes) }
{
    if !narrows_kind(alloc, unwanted, &given.users, &other.users)? {
        return Ok(false);
    }
    if !narrows_kind(alloc, unwanted, &given.groups, &other.groups)? {
        return Ok(false);
    }
    Ok(narrows_names(&given.names, &other.names))
}

/// Whether what the options of all guests set up only takes away from each.
pub(super) fn are_narrower<A: Allocator + Copy>(
    alloc: A,
    unwanted: Unwanted,
    given: &[SetUp<A>],
    others: &[SetUp<A>],
) -> Result<bool, AllocError>
    ensures narrower { IfOk result (λ yes. IsTrue yes → AllZip NarrowerSet given.now others.now) }
    ensures same { IfOk result (λ yes. AllZip SameSet given.now others.now → IsTrue yes) }
{
    if given.len() != others.len() {
        return Ok(false);
    }
    for place in 0..given.len() {
        if !is_narrower(alloc, unwanted, &given[place], &others[place])? {
            return Ok(false);
        }
    }
    Ok(true)
}
