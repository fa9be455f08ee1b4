//! Which of two audits of the same guests finds less.
ghost use Rattle.std.specs.List.{Any};
ghost use Rattle.std.specs.Prelude.{◌≡◌, ◌↔◌, IsTrue};
ghost use Rattle.virtiofs_findings.specs.Advice.{ids_of, first_ids, second_ids, ids_found, lies_in, lies_in_any, all_lie_in, IsAlike, IsWithin, IsNew, HasNew, FindsLess};

use crate::audit::is_accepted;
use crate::finding::{Evidence, Finding, Kind};
use crate::ids::found::IdsFound;
use crate::ids::kind::IdKind;
use std::alloc::Allocator;
use virtiofs_id_audit::Span;

/// Whose ids it is about, if it is about those of users or those of groups alone.
pub(crate) fn ids_of<A: Allocator>(evidence: &Evidence<A>) -> Option<IdKind>
    ensures { result ≡ ids_of evidence.now }
{
    match evidence {
        Evidence::OfIds(kind) | Evidence::Range(kind, _) => Some(*kind),
        Evidence::Ids { ids, .. } => Some(*ids),
        _ => None,
    }
}

/// The ids that are found, if some are.
fn ids_found<A: Allocator>(found: &Option<IdsFound<A>>) -> &[Span]
    ensures { result.now ≡ ids_found found.now }
{
    match found {
        Some(found) => found.ids.as_slice(),
        None => &[],
    }
}

/// The ids that a finding is about; those of users, if it is about both kinds.
fn first_ids<A: Allocator>(evidence: &Evidence<A>) -> &[Span]
    ensures { result.now ≡ first_ids evidence.now }
{
    match evidence {
        Evidence::Ids { found, .. } => found.ids.as_slice(),
        Evidence::BothIds(users, _) => ids_found(users),
        _ => &[],
    }
}

/// Those of groups, if it is about both kinds.
fn second_ids<A: Allocator>(evidence: &Evidence<A>) -> &[Span]
    ensures { result.now ≡ second_ids evidence.now }
{
    match evidence {
        Evidence::BothIds(_, groups) => ids_found(groups),
        _ => &[],
    }
}

/// Whether a span lies in another one.
fn lies_in(span: &Span, other: &Span) -> bool
    ensures { result ≡ lies_in span.now other.now }
{
    other.first <= span.first && span.last <= other.last
}

/// Whether a span lies in one of these.
fn lies_in_any(span: &Span, others: &[Span]) -> bool
    ensures { result ≡ lies_in_any span.now others.now }
{
    others.iter().any(|other| lies_in(span, other))
}

/// Whether each of the spans does.
fn all_lie_in(others: &[Span], spans: &[Span]) -> bool
    ensures { result ≡ all_lie_in others.now spans.now }
{
    spans.iter().all(|span| lies_in_any(span, others))
}

/// Whether it says what the other says, of the same guests, and of ids of the same kind.
fn is_alike<A: Allocator>(finding: &Finding<A>, other: &Finding<A>) -> bool
    ensures { IsTrue result ↔ IsAlike finding.now other.now }
{
    finding.about == other.about
        && finding.kind == other.kind
        && ids_of(&finding.evidence) == ids_of(&other.evidence)
}

/// Whether it does, and its ids are among those of the other.
fn is_within<A: Allocator>(finding: &Finding<A>, other: &Finding<A>) -> bool
    ensures { IsTrue result ↔ IsWithin finding.now other.now }
{
    if !is_alike(finding, other) {
        return false;
    }
    let (one, another) = (&finding.evidence, &other.evidence);
    if !all_lie_in(first_ids(another), first_ids(one)) {
        return false;
    }
    all_lie_in(second_ids(another), second_ids(one))
}

/// Whether a finding is within one of the others.
fn is_within_any<A: Allocator>(finding: &Finding<A>, others: &[Finding<A>]) -> bool
    ensures { IsTrue result ↔ Any (IsWithin finding.now) others.now }
{
    for other in others {
        if is_within(finding, other) {
            return true;
        }
    }
    false
}

/// Whether a finding is not accepted, and within none of the others.
fn is_new<A: Allocator>(accepted: &[Kind], finding: &Finding<A>, others: &[Finding<A>]) -> bool
    ensures { IsTrue result ↔ IsNew accepted.now others.now finding.now }
{
    !is_accepted(accepted, finding.kind) && !is_within_any(finding, others)
}

/// Whether something new is found: not accepted, and within none of the others.
fn has_new<A: Allocator>(accepted: &[Kind], found: &[Finding<A>], others: &[Finding<A>]) -> bool
    ensures { IsTrue result ↔ HasNew accepted.now found.now others.now }
{
    for finding in found {
        if is_new(accepted, finding, others) {
            return true;
        }
    }
    false
}

/// Whether less is found: nothing of any kind that was not found, and something that counts, or some of
/// its ids, no more.
pub(crate) fn finds_less<A: Allocator>(
    accepted: &[Kind],
    left: &[Finding<A>],
    found: &[Finding<A>],
) -> bool
    ensures { IsTrue result ↔ FindsLess accepted.now left.now found.now }
{
    !has_new(&[], left, found) && has_new(accepted, found, left)
}
