//! What is decided of all ids of a guest.
ghost use Rattle.std.specs.Prelude.{◌↔◌, IfOk, IsTrue};
ghost use Rattle.virtiofs_id_audit.specs.IdAudit.{GoesTo, GoesInto, Hold};
ghost use Rattle.virtiofs_findings.specs.IdFindings.{FindsAll, IsAstrayBut, TellsAstray, TellsHost, FindsIds, ActAsRoot};

use super::found::{IdFindings, IdsFound};
use crate::ids::Ids;
use std::alloc::{AllocError, Allocator};
use virtiofs_id_audit::namespace::lacking_ids;
use virtiofs_id_audit::outside::{Way, moved_all};
use virtiofs_id_audit::{Span, ids_astray, ids_into};
use virtiofs_map::id_types::{GuestUid, HostUid, Id};
use virtiofs_map::idmap::UidMap;

/// Whether the id of the guest, which is not 4294967295, becomes that id of the host.
fn goes_to<A: Allocator>(map: &Ids<A>, guest: GuestUid, host: HostUid) -> bool
    ensures { IsTrue result ↔ GoesTo map.now guest host }
{
    if guest.into_inner() == u32::MAX {
        return false;
    }
    let Ok(there) = map.map_guest(guest) else {
        return false;
    };
    there.into_inner() == host.into_inner()
}

/// The ids that do not round-trip, but for those that become one of these.
fn astray_of<A: Allocator + Copy>(
    alloc: A,
    map: &Ids<A>,
    besides: &[Span],
) -> Result<Option<IdsFound<A>>, AllocError>
    ensures { IfOk result
        (FindsAll (IsAstrayBut map.now (Hold besides.now)) (TellsAstray map.now)) }
{
    let ids = ids_astray(alloc, map, besides)?;
    let Some(span) = ids.as_slice().first() else {
        return Ok(None);
    };
    let guest = GuestUid::from(span.first);
    let Ok(host) = map.map_guest(guest) else {
        unreachable!();
    };
    let Ok(back) = map.map_host(host) else {
        unreachable!();
    };
    Ok(Some(IdsFound {
        guest: guest.into_inner(),
        host: host.into_inner(),
        other: back.into_inner(),
        is_shared: goes_to(map, back, host),
        ids,
    }))
}

/// The ids that become one of these.
pub(super) fn ids_to<A: Allocator + Copy>(
    alloc: A,
    map: &Ids<A>,
    hosts: &[Span],
) -> Result<Option<IdsFound<A>>, AllocError>
    ensures { IfOk result (FindsAll (GoesInto map.now (Hold hosts.now)) (TellsHost map.now)) }
{
    let ids = ids_into(alloc, map, hosts)?;
    let Some(span) = ids.as_slice().first() else {
        return Ok(None);
    };
    let guest = GuestUid::from(span.first);
    let Ok(host) = map.map_guest(guest) else {
        unreachable!();
    };
    Ok(Some(IdsFound {
        guest: guest.into_inner(),
        host: host.into_inner(),
        other: 0,
        is_shared: false,
        ids,
    }))
}

/// The ids of a guest that act as root of the host, whose daemon runs in a namespace of these
/// ranges.
pub(crate) fn acting_as_root<A: Allocator + Copy>(
    alloc: A,
    map: &Ids<A>,
    ranges: &[UidMap],
) -> Result<Option<IdsFound<A>>, AllocError>
    ensures { IfOk result (ActAsRoot map.now ranges.now) }
{
    let root = [Span { first: 0, last: 0 }];
    let inside = moved_all(alloc, Way::Inwards, ranges, &root)?;
    ids_to(alloc, map, inside.as_slice())
}

/// What is wrong with the ids of a guest, whose daemon runs in a namespace of these ranges.
pub(crate) fn audit_ids<A: Allocator + Copy>(
    alloc: A,
    map: &Ids<A>,
    ranges: &[UidMap],
) -> Result<IdFindings<A>, AllocError>
    ensures { IfOk result (FindsIds map.now ranges.now) }
{
    let lacking = lacking_ids(alloc, ranges)?;
    Ok(IdFindings {
        astray: astray_of(alloc, map, lacking.as_slice())?,
        lacking: ids_to(alloc, map, lacking.as_slice())?,
    })
}
