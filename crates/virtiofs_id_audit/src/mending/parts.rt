//! What is left of a specification where ids of the guest are cut out of it.
ghost use Rattle.std.specs.Prelude.{◌≡◌, ◌⊎◌, ◌≤◌, ℕ, List, [], ◌∷◌, ◌++◌, All, Contains, IsSomeAnd, IfSome, OnOk, MatchOption};
ghost use Rattle.virtiofs_id_audit.specs.IdAudit.{Hold, AreRuns};
ghost use Rattle.virtiofs_id_audit.specs.MendingParts.{IsPart, AreParts, AreCut, IsRemnant, IsHostHalf, HasNoHostHalf};
ghost use Rattle.virtiofs_map.specs.Build.{Accepted, HasSource, HasTarget};
ghost use Rattle.virtiofs_map.specs.Mapping.{entry_of, EntryCovers, Covers};
ghost use Rattle.virtiofs_map.specs.declared.cmdline.IdMap.{IdMap as Specification};
ghost use Rattle.virtiofs_map.specs.declared.soft_idmap.entry.Direction.TheVariants.{GuestToHost};

use crate::cuts::{meeting, without};
use crate::spans::Span;
use std::alloc::{AllocError, Allocator};
use virtiofs_map::cmdline::IdMap;
use virtiofs_map::soft_idmap::{Direction, entry_of};

/// What a specification does to the ids of the guest in a span.
fn part(spec: IdMap, span: Span) -> IdMap
    requires order { span.first ≤ span.last }
    requires inside { IsSomeAnd (entry_of spec GuestToHost) (λ entry.
        EntryCovers entry span.first × EntryCovers entry span.last) }
    requires target { IfSome (entry_of spec GuestToHost) HasTarget }
    ensures { IsPart spec span result }
{
    let count = span.last - span.first + 1;
    match spec {
        IdMap::Guest {
            from_guest,
            to_host,
            ..
        } => IdMap::Guest {
            from_guest: span.first,
            to_host: to_host + (span.first - from_guest),
            count,
        },
        IdMap::Bidirectional { guest, host, .. } => IdMap::Guest {
            from_guest: span.first,
            to_host: host + (span.first - guest),
            count,
        },
        IdMap::SquashGuest { to_host, .. } => IdMap::SquashGuest {
            from_guest: span.first,
            to_host,
            count,
        },
        IdMap::ForbidGuest { .. } => IdMap::ForbidGuest {
            from_guest: span.first,
            count,
        },
        IdMap::Host { .. } | IdMap::SquashHost { .. } => unreachable!(),
    }
}

/// Adds what a specification does to the ids of the guest in some spans: a part for each span.
pub(crate) fn push_parts<A: Allocator>(
    out: &mut Vec<IdMap, A>,
    spec: IdMap,
    spans: &[Span],
) -> Result<(), AllocError>
    requires runs { AreRuns spans.now }
    requires inside { All (λ span. IsSomeAnd (entry_of spec GuestToHost) (λ entry.
        EntryCovers entry span.first × EntryCovers entry span.last)) spans.now }
    requires source { IfSome (entry_of spec GuestToHost) HasSource }
    requires target { IfSome (entry_of spec GuestToHost) HasTarget }
    ensures { OnOk result ((parts : List Specification)
        × (out.new.items ≡ out.old.items ++ parts) × AreParts spec spans.now parts) }
{
    for span in spans {
        out.push(part(spec, *span))?;
    }
    Ok(())
}

/// What a specification does to ids of the host, where it acts on those of the guest too.
fn host_half(spec: IdMap) -> Option<IdMap>
    ensures { MatchOption result (HasNoHostHalf spec) (IsHostHalf spec) }
{
    let IdMap::Bidirectional { guest, host, count } = spec else {
        return None;
    };
    Some(IdMap::Host {
        from_host: host,
        to_guest: guest,
        count,
    })
}

/// Adds a specification without the bad ids of the guest: as it is where it covers none.
pub(crate) fn push_cut<A: Allocator>(
    alloc: A,
    out: &mut Vec<IdMap, A>,
    spec: IdMap,
    bad: &[Span],
) -> Result<(), AllocError>
    requires accepted { Accepted (spec ∷ []) }
    requires runs { AreRuns bad.now }
    ensures cut { OnOk result ((parts : List Specification)
        × (out.new.items ≡ out.old.items ++ parts) × AreCut (spec ∷ []) (Hold bad.now) parts) }
    ensures remnants { OnOk result ((remnant : Specification)
        → Contains out.new.items remnant
        → Contains out.old.items remnant ⊎ IsRemnant spec (Hold bad.now) remnant) }
    ensures clean { ((n : ℕ) → Covers spec GuestToHost n → ¬ Hold bad.now n)
        → OnOk result (out.new.items ≡ out.old.items ++ spec ∷ []) }
{
    let Some(entry) = entry_of(spec, Direction::GuestToHost) else {
        return Ok(out.push(spec)?);
    };
    if entry.is_empty() {
        return Ok(out.push(spec)?);
    }
    let whole = Span {
        first: entry.first(),
        last: (entry.end() - 1) as u32,
    };
    let bad = meeting(bad, whole);
    if bad.is_empty() {
        return Ok(out.push(spec)?);
    }
    let kept = without(alloc, whole, bad)?;
    push_parts(out, spec, &kept)?;
    let Some(half) = host_half(spec) else {
        return Ok(());
    };
    Ok(out.push(half)?)
}
