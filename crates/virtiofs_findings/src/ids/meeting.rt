//! The ids of the host that two guests reach, outside the namespaces of their daemons.
ghost use Rattle.std.specs.Prelude.{◌≡◌, ◌<◌, ◌↔◌, ℕ, IfOk, MatchOption};
ghost use Rattle.virtiofs_id_audit.specs.IdAudit.{IsLeastId, GoesInto, Hold};
ghost use Rattle.virtiofs_findings.specs.IdFindings.{ReachedOutside, Meets, FindsMeeting};
ghost use Rattle.virtiofs_id_audit.specs.Namespace.{StandsBy, StandsFor};

use super::found::IdsFound;
use crate::setup::IdSetUp;
use std::alloc::{AllocError, Allocator};
use virtiofs_id_audit::outside::{Way, id_moved, moved_all};
use virtiofs_id_audit::{Span, ids_into, reached, reaches_any};
use virtiofs_map::id_types::{GuestUid, Id};
use virtiofs_map::idmap::UidMap;

/// An id of the host that a guest reaches.
#[derive(Clone, Copy)]
struct Met {
    /// The id of the host, outside the namespace.
    host: u32,
    /// The least id of the guest that is it.
    guest: u32,
}

/// The id of the host, if the guest reaches it.
fn met_at<A: Allocator + Copy>(
    alloc: A,
    host: u32,
    other: &IdSetUp<A>,
) -> Result<Option<Met>, AllocError>
    ensures { IfOk result (λ met. MatchOption met
        (¬ ReachedOutside other.now.map other.now.ranges.items host)
        (λ met. (met.host ≡ host) × IsLeastId
        (GoesInto other.now.map (StandsFor other.now.ranges.items host)) met.guest)) }
{
    if host == u32::MAX {
        return Ok(None);
    }
    let one = [Span {
        first: host,
        last: host,
    }];
    let inside = moved_all(alloc, Way::Inwards, other.ranges.as_slice(), &one)?;
    let Some(guest) = reaches_any(alloc, &other.map, inside.as_slice())? else {
        return Ok(None);
    };
    Ok(Some(Met {
        host,
        guest: guest.into_inner(),
    }))
}

/// What the id inside the range is outside it, if the guest reaches that.
fn met_by<A: Allocator + Copy>(
    alloc: A,
    range: &UidMap,
    inside: u32,
    other: &IdSetUp<A>,
) -> Result<Option<Met>, AllocError>
    ensures { IfOk result (λ met. MatchOption met
        ((host : ℕ) → StandsBy range.now host inside
        → ¬ ReachedOutside other.now.map other.now.ranges.items host)
        (λ met. StandsBy range.now met.host inside × IsLeastId
        (GoesInto other.now.map (StandsFor other.now.ranges.items met.host)) met.guest)) }
{
    let Some(host) = id_moved(Way::Outwards, range, inside) else {
        return Ok(None);
    };
    met_at(alloc, host, other)
}

/// What the id inside the namespace of these ranges is outside it, if the guest reaches that.
fn met_of<A: Allocator + Copy>(
    alloc: A,
    ranges: &[UidMap],
    inside: u32,
    other: &IdSetUp<A>,
) -> Result<Option<Met>, AllocError>
    ensures { IfOk result (λ met. MatchOption met
        (¬ Meets ranges.now other.now.map other.now.ranges.items inside)
        (λ met. StandsFor ranges.now met.host inside × IsLeastId
        (GoesInto other.now.map (StandsFor other.now.ranges.items met.host)) met.guest)) }
{
    if ranges.is_empty() {
        return met_at(alloc, inside, other);
    }
    for range in ranges {
        if let Some(met) = met_by(alloc, range, inside, other)? {
            return Ok(Some(met));
        }
    }
    Ok(None)
}

/// The ids of the spans, but for 4294967295, which is none.
pub(crate) fn but_no_id<A: Allocator + Copy>(
    alloc: A,
    spans: &[Span],
) -> Result<Vec<Span, A>, AllocError>
    ensures { IfOk result (λ ids. (id : ℕ)
        → Hold ids.items id ↔ (Hold spans.now id × (id < 4294967295))) }
{
    let all = [UidMap {
        inside_uid: 0,
        outside_uid: 0,
        count: u32::MAX,
    }];
    moved_all(alloc, Way::Outwards, &all, spans)
}

/// The ids inside the namespace of these ranges which are ids of the host that the guest reaches.
fn met_inside<A: Allocator + Copy>(
    alloc: A,
    ranges: &[UidMap],
    other: &IdSetUp<A>,
) -> Result<Vec<Span, A>, AllocError>
    ensures { IfOk result (λ met. (inside : ℕ) → Hold met.items inside
        ↔ Meets ranges.now other.now.map other.now.ranges.items inside) }
{
    let theirs = reached(alloc, &other.map)?;
    let outside = moved_all(
        alloc,
        Way::Outwards,
        other.ranges.as_slice(),
        theirs.as_slice(),
    )?;
    let ids = but_no_id(alloc, outside.as_slice())?;
    let met = moved_all(alloc, Way::Inwards, ranges, ids.as_slice())?;
    Ok(met)
}

/// The ids of the first guest that are ids of the host which the second reaches too.
pub(crate) fn meeting_of<A: Allocator + Copy>(
    alloc: A,
    one: &IdSetUp<A>,
    other: &IdSetUp<A>,
) -> Result<Option<IdsFound<A>>, AllocError>
    ensures { IfOk result (FindsMeeting one.now.map one.now.ranges.items
        other.now.map other.now.ranges.items) }
{
    let hosts = met_inside(alloc, one.ranges.as_slice(), other)?;
    let ids = ids_into(alloc, &one.map, hosts.as_slice())?;
    let Some(span) = ids.as_slice().first() else {
        return Ok(None);
    };
    let guest = GuestUid::from(span.first);
    let Ok(inside) = one.map.map_guest(guest) else {
        unreachable!();
    };
    let met = met_of(alloc, one.ranges.as_slice(), inside.into_inner(), other)?;
    let Some(met) = met else {
        unreachable!();
    };
    Ok(Some(IdsFound {
        ids,
        guest: guest.into_inner(),
        host: met.host,
        other: met.guest,
        is_shared: false,
    }))
}
