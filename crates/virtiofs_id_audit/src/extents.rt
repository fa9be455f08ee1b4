//! Which ids of the guest fare in some way, as spans.
ghost use Rattle.std.specs.Prelude.{◌↔◌, ℕ, IfOk};
ghost use Rattle.virtiofs_id_audit.specs.IdAudit.{IsAstray, GoesInto, Hold, AreRuns};

mod runs;
mod sought;
mod starts;

use crate::spans::Span;
pub(crate) use runs::Sought;
pub(crate) use sought::{first_astray, ids_sought, least_into};
use std::alloc::{AllocError, Allocator};
use virtiofs_map::id_types::{GuestId, HostId};
use virtiofs_map::soft_idmap::IdMap;

/// The ids of the guest that become an id of the host which one of the spans has.
///
/// The given spans may stand in any order, and may overlap. The told ones are in order, and as few
/// as can be: an id that is not told lies between each two. So [`reaches_any`](super::reaches_any)
/// answers with the first id of the first one.
///
/// Under `map:0:100000:65536` those that become 100000 are 0 and 100000.
///
/// With m specifications, given spans and told spans it takes as long as some m lookups and a sort
/// of some m numbers. Where many ranges of the guest lead to the same ids of the host, many more
/// spans may be told than are given.
///
/// # Errors
///
/// `AllocError`: a request for memory was refused.
pub fn ids_into<
    Guest: GuestId<HostType = Host>,
    Host: HostId<GuestType = Guest>,
    A: Allocator + Copy,
>(alloc: A, map: &IdMap<Guest, Host, A>, hosts: &[Span]) -> Result<Vec<Span, A>, AllocError>
    ensures ids { IfOk result (λ ids. (guest : ℕ)
        → Hold ids.items guest ↔ GoesInto map.now (Hold hosts.now) guest) }
    ensures runs { IfOk result (λ ids. AreRuns ids.items) }
{
    ids_sought(alloc, map, Sought::Into, hosts)
}

/// The ids of the guest that do not come back ([`comes_back`](super::comes_back)), but for those
/// that become an id of the host which one of the spans has.
///
/// The given spans may stand in any order, and may overlap; with none the ids are all that do not
/// come back. The told ones are in order, and as few as can be: an id that is not told lies between
/// each two.
///
/// Under `map:0:100000:65536` they are those from 100000 to 165535, which come back as 0 to 65535.
///
/// It takes as long as [`ids_into`] does.
///
/// # Errors
///
/// `AllocError`: a request for memory was refused.
pub fn ids_astray<
    Guest: GuestId<HostType = Host>,
    Host: HostId<GuestType = Guest>,
    A: Allocator + Copy,
>(alloc: A, map: &IdMap<Guest, Host, A>, besides: &[Span]) -> Result<Vec<Span, A>, AllocError>
    ensures ids { IfOk result (λ ids. (guest : ℕ) → Hold ids.items guest
        ↔ (IsAstray map.now guest × (¬ GoesInto map.now (Hold besides.now) guest))) }
    ensures runs { IfOk result (λ ids. AreRuns ids.items) }
{
    ids_sought(alloc, map, Sought::OnlyAstray, besides)
}
