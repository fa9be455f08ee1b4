//! Specifications that forbid the bad ids of the guest, and change nothing else.
ghost use Rattle.std.specs.Prelude.{◌≡◌, ℕ, IfOk};
ghost use Rattle.virtiofs_id_audit.specs.IdAudit.{ComesBack, IsAlone, Hold};
ghost use Rattle.virtiofs_id_audit.specs.Mending.{IsBad, Mends, IsShort, KeepsClean};

mod parts;

use crate::extents::{Sought, ids_sought};
use crate::spans::Span;
use parts::{push_cut, push_parts};
use std::alloc::{AllocError, Allocator};
use virtiofs_map::cmdline;
use virtiofs_map::id_types::{GuestId, HostId};
use virtiofs_map::soft_idmap::IdMap;

/// All ids of the guest are forbidden.
const FORBIDDEN: cmdline::IdMap = cmdline::IdMap::ForbidGuest {
    from_guest: 0,
    count: u32::MAX,
};

/// The specifications of the map, mended: with the bad ids of the guest forbidden, and nothing else
/// changed.
///
/// An id is *bad* if what it becomes on the host does not become that id again, or is an id of one of
/// the spans `bad_host`. They may stand in any order, and may overlap. The mended specifications
/// forbid the ids that were forbidden or bad, and no other. Each other id becomes what it became, and
/// so does each id of the host. So every id comes back ([`comes_back`](super::comes_back)), and has an
/// id of the host of its own ([`is_alone`](super::is_alone)). [`IdMap::try_from`] makes a map of them.
///
/// Under `map:0:100000:65536` the bad ids are those from 100000 to 165535, which come back as 0 to
/// 65535. What is mended is `map:0:100000:65536` and `forbid-guest:100000:65536`.
///
/// A specification that covers no bad id stays as it is, so all do where no id is bad. Of another one
/// there remains, in its place, one for each run of its ids that are not bad, and the host's half of a
/// `map`. Those that forbid the bad ids come last, one for each run.
///
/// With m specifications and spans it takes as long as some m lookups and a sort of some m numbers.
///
/// # Errors
///
/// `AllocError`: a request for memory was refused.
pub fn mended<
    Guest: GuestId<HostType = Host>,
    Host: HostId<GuestType = Guest>,
    A: Allocator + Copy,
>(
    alloc: A,
    map: &IdMap<Guest, Host, A>,
    bad_host: &[Span],
) -> Result<Vec<cmdline::IdMap, A>, AllocError>
    ensures mends { IfOk result (λ mended. Mends map.now (Hold bad_host.now) mended.items) }
    ensures none_bad { IfOk result (λ mended. (guest : ℕ)
        → ¬ IsBad mended.items (Hold bad_host.now) guest) }
    ensures comes_back { IfOk result (λ mended. ComesBack mended.items) }
    ensures alone { IfOk result (λ mended. IsAlone mended.items) }
    ensures short { IfOk result (λ mended.
        IsShort map.now (Hold bad_host.now) mended.items) }
    ensures clean { IfOk result (λ mended.
        KeepsClean map.now (Hold bad_host.now) mended.items) }
    ensures unchanged { ((guest : ℕ) → ¬ IsBad map.now (Hold bad_host.now) guest)
        → IfOk result (λ mended. mended.items ≡ map.now) }
{
    let bad = ids_sought(alloc, map, Sought::Bad, bad_host)?;
    let mut specs = Vec::new(alloc);
    for spec in map.specs() {
        push_cut(alloc, &mut specs, *spec, &bad)?;
    }
    push_parts(&mut specs, FORBIDDEN, &bad)?;
    Ok(specs)
}
