//! The ids of the guest that are sought, found run by run.
ghost use Rattle.std.specs.Prelude.{◌↔◌, ◌<◌, ◌≤◌, ℕ, All, IfOk};
ghost use Rattle.virtiofs_id_audit.specs.IdAuditParts.{IsSought};
ghost use Rattle.virtiofs_id_audit.specs.IdAudit.{IsLeastIfAny, IsAstray, GoesInto, Hold, AreRuns};
ghost use Rattle.virtiofs_map.specs.Build.{Accepted};

use crate::extents::runs::{GREATEST, Sought, run_into, run_of, run_trip};
use crate::extents::starts::starts_of;
use crate::images::merged;
use crate::spans::Span;
use std::alloc::{AllocError, Allocator};
use virtiofs_map::id_types::{GuestId, HostId};
use virtiofs_map::soft_idmap::IdMap;

/// The least id of the guest that does not come back.
pub(crate) fn first_astray<
    Guest: GuestId<HostType = Host>,
    Host: HostId<GuestType = Guest>,
    A: Allocator,
>(map: &IdMap<Guest, Host, A>) -> Option<u32>
    ensures accepted { Accepted map.now }
    ensures least { IsLeastIfAny (IsAstray map.now) result }
{
    let mut next = 0;
    loop {
        let run = run_trip(map, next);
        if run.all {
            return Some(next);
        }
        if run.last >= GREATEST {
            return None;
        }
        next = run.last + 1;
    }
}

/// The least id of the guest, from `from` on, that becomes an id of one of the spans.
pub(crate) fn least_into<
    Guest: GuestId<HostType = Host>,
    Host: HostId<GuestType = Guest>,
    A: Allocator,
>(map: &IdMap<Guest, Host, A>, from: u32, spans: &[Span]) -> Option<u32>
    requires { AreRuns spans.now }
    ensures { IsLeastIfAny (λ n. (from ≤ n) × GoesInto map.now (Hold spans.now) n) result }
{
    let mut next = from;
    while next < u32::MAX {
        let run = run_into(map, next, spans);
        if run.all {
            return Some(next);
        }
        next = run.last + 1;
    }
    None
}

/// The ids of the guest that are sought, as few spans in order.
pub(crate) fn ids_sought<
    Guest: GuestId<HostType = Host>,
    Host: HostId<GuestType = Guest>,
    A: Allocator + Copy,
>(
    alloc: A,
    map: &IdMap<Guest, Host, A>,
    sought: Sought,
    hosts: &[Span],
) -> Result<Vec<Span, A>, AllocError>
    ensures ids { IfOk result (λ ids. (guest : ℕ)
        → Hold ids.items guest ↔ IsSought sought map.now (Hold hosts.now) guest) }
    ensures runs { IfOk result (λ ids. AreRuns ids.items) }
    ensures below { IfOk result (λ ids. All (λ span. span.last < 4294967295) ids.items) }
{
    let hosts = merged(alloc, hosts)?;
    let starts = starts_of(alloc, map)?;
    let mut ids = Vec::new(alloc);
    let mut next = 0;
    while next < u32::MAX {
        let run = run_of(map, sought, next, &starts, &hosts);
        if run.all {
            ids.push(Span {
                first: next,
                last: run.last,
            })?;
        }
        next = run.last + 1;
    }
    let merged = merged(alloc, &ids)?;
    Ok(merged)
}
