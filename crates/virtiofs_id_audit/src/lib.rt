//! What a map does to all ids of the guest, decided with proof.
//!
//! A map answers for one id at a time ([`virtiofs_map::soft_idmap`]). An administrator asks
//! about all ids at once, before a share goes live: does each user of the guest come back as that
//! user, does each have an id of the host of its own, can the guest act as root of the host or as
//! anybody outside the range that it was given, do two guests on one host reach an id both? An
//! audit answers for every id there is, and where the answer is no it gives the least id that shows
//! it.
//!
//! - [`comes_back`]: what an id becomes on the host becomes that id again. `map:0:100000:65536` does
//!   not do so: 100000 stays itself on the host, and comes back as 0.
//! - [`is_alone`]: no two ids become one id of the host.
//! - [`reaches`]: the least id that becomes an id of the host in some range.
//! - [`ids_apart`]: no id of the host is reached by two maps.
//! - [`reached`]: the ids of the host that the guest reaches, as spans.
//! - [`reaches_any`]: the least id that becomes an id of the host which one of some spans has.
//! - [`ids_into`]: the ids of the guest that become an id of the host which one of some spans has.
//! - [`ids_astray`]: the ids of the guest that do not come back, but for those.
//! - [`mended`]: the specifications, with the ids forbidden that do not come back, and those that
//!   become an id of the host which one of some spans has.
//!
//! The ids are those of the guest from 0 to 4294967294 that no specification forbids. 4294967295 is
//! left out: it stays itself whatever is specified, and is no id to Linux.
//!
//! With m specifications an audit takes as long as m lookups and a sort of m numbers.
#![tactic(auto)]

ghost use Rattle.std.specs.Prelude.{◌≡◌, ◌↔◌, ℕ, IfOk};
ghost use Rattle.std.specs.Option.{option_map};
ghost use Rattle.virtiofs_id_audit.specs.IdAudit.{IsLeastId, IsLeastIfAny, AnswersLeastId, IfNo, ComesBack, IsAstray};
ghost use Rattle.virtiofs_id_audit.specs.IdAudit.{WanderTo, IsAlone, IsShared, SharedAs, GoesInto, Between, AreIdsApart};
ghost use Rattle.virtiofs_id_audit.specs.IdAudit.{ReachedBy, Hold};
ghost use Rattle.virtiofs_id_audit.specs.declared.answer.IdAudit.TheVariants.{Yes};

mod answer;
mod cuts;
mod extents;
mod images;
mod mending;
pub mod namespace;
pub mod outside;
mod round_trips;
mod spans;

pub use answer::{Astray, IdAudit, Shared};
pub use extents::{ids_astray, ids_into};
use extents::{first_astray, least_into};
use images::{images_of, merged, reached_again};
pub use mending::mended;
pub use spans::Span;
use std::alloc::{AllocError, Allocator};
use virtiofs_map::id_types::{GuestId, HostId};
use virtiofs_map::soft_idmap::{IdMap, id_of, number_of};

/// Whether each id comes back: what it becomes on the host becomes that id again. `No` has the least
/// id that does not, what it becomes on the host, and what that becomes in the guest.
///
/// It takes no memory.
pub fn comes_back<Guest: GuestId<HostType = Host>, Host: HostId<GuestType = Guest>, A: Allocator>(
    map: &IdMap<Guest, Host, A>,
) -> IdAudit<Astray<Guest, Host>>
    ensures answer { AnswersLeastId (IsAstray map.now) (λ no. Guest.number no.guest) result }
    ensures told { IfNo result (λ no. WanderTo map.now
        (Guest.number no.guest) (Host.number no.host) (Guest.number no.back)) }
    ensures comes_back { (result ≡ Yes) ↔ ComesBack map.now }
{
    match first_astray(map) {
        Some(n) => IdAudit::No(wandering(map, n)),
        None => IdAudit::Yes,
    }
}

/// What an id that does not come back becomes.
fn wandering<Guest: GuestId<HostType = Host>, Host: HostId<GuestType = Guest>, A: Allocator>(
    map: &IdMap<Guest, Host, A>,
    n: u32,
) -> Astray<Guest, Host>
    requires { IsAstray map.now n }
    ensures guest { Guest.number result.guest ≡ n }
    ensures wanders { WanderTo map.now
        (Guest.number result.guest) (Host.number result.host) (Guest.number result.back) }
{
    let guest: Guest = id_of(n);
    let Ok(host) = map.map_guest(guest) else {
        unreachable!();
    };
    let Ok(back) = map.map_host(host) else {
        unreachable!();
    };
    Astray { guest, host, back }
}

/// Whether each id has an id of the host of its own: no two ids become one. `No` has the least id
/// that shares its id of the host, the least one with which it shares, and the id of the host.
///
/// # Errors
///
/// `AllocError`: a request for memory was refused.
pub fn is_alone<
    Guest: GuestId<HostType = Host>,
    Host: HostId<GuestType = Guest>,
    A: Allocator + Copy,
>(alloc: A, map: &IdMap<Guest, Host, A>) -> Result<IdAudit<Shared<Guest, Host>>, AllocError>
    ensures answer { IfOk result (AnswersLeastId (IsShared map.now)
        (λ no. Guest.number no.guest)) }
    ensures told { IfOk result (λ audit. IfNo audit (λ no. SharedAs map.now
        (Guest.number no.guest) (Guest.number no.other) (Host.number no.host))) }
    ensures alone { IfOk result (λ audit. (audit ≡ Yes) ↔ IsAlone map.now) }
{
    let images = images_of(alloc, map)?;
    let twice = reached_again(alloc, &images)?;
    let Some(guest) = reaches_any(alloc, map, &twice)? else {
        return Ok(IdAudit::Yes);
    };
    Ok(IdAudit::No(sharing(map, guest)))
}

/// With which id an id shares its id of the host.
fn sharing<Guest: GuestId<HostType = Host>, Host: HostId<GuestType = Guest>, A: Allocator>(
    map: &IdMap<Guest, Host, A>,
    guest: Guest,
) -> Shared<Guest, Host>
    requires { IsLeastId (IsShared map.now) (Guest.number guest) }
    ensures guest { Guest.number result.guest ≡ Guest.number guest }
    ensures shares { SharedAs map.now
        (Guest.number result.guest) (Guest.number result.other) (Host.number result.host) }
{
    let Ok(host) = map.map_guest(guest) else {
        unreachable!();
    };
    let id = number_of(host);
    let only = [Span {
        first: id,
        last: id,
    }];
    let Some(other) = least_into(map, number_of(guest) + 1, &only) else {
        unreachable!();
    };
    Shared {
        guest,
        other: id_of(other),
        host,
    }
}

/// The least id that becomes an id of the host from `first` to `last`; `None` where there is none.
///
/// So it says whether the guest can act as somebody of a range: from 0 to 0 as root, from the end of
/// the range that it was given to 4294967295 as anybody above it. It takes no memory.
pub fn reaches<Guest: GuestId<HostType = Host>, Host: HostId<GuestType = Guest>, A: Allocator>(
    map: &IdMap<Guest, Host, A>,
    first: Host,
    last: Host,
) -> Option<Guest>
    ensures { IsLeastIfAny
        (GoesInto map.now (Between (Host.number first) (Host.number last)))
        (option_map (λ guest. Guest.number guest) result) }
{
    let span = Span {
        first: number_of(first),
        last: number_of(last),
    };
    if span.last < span.first {
        return None;
    }
    let spans = [span];
    let Some(n) = least_into(map, 0, &spans) else {
        return None;
    };
    Some(id_of(n))
}

/// The ids of the host that the guest reaches: the spans have each id that some id of the guest
/// becomes, and no other.
///
/// # Errors
///
/// `AllocError`: a request for memory was refused.
pub fn reached<
    Guest: GuestId<HostType = Host>,
    Host: HostId<GuestType = Guest>,
    A: Allocator + Copy,
>(alloc: A, map: &IdMap<Guest, Host, A>) -> Result<Vec<Span, A>, AllocError>
    ensures { IfOk result (λ spans. (host : ℕ)
        → Hold spans.items host ↔ ReachedBy map.now host) }
{
    let images = images_of(alloc, map)?;
    let merged = merged(alloc, &images)?;
    Ok(merged)
}

/// The least id that becomes an id of the host which one of the spans has; `None` where there is
/// none. The spans may stand in any order, and may overlap.
///
/// # Errors
///
/// `AllocError`: a request for memory was refused.
pub fn reaches_any<
    Guest: GuestId<HostType = Host>,
    Host: HostId<GuestType = Guest>,
    A: Allocator + Copy,
>(alloc: A, map: &IdMap<Guest, Host, A>, spans: &[Span]) -> Result<Option<Guest>, AllocError>
    ensures { IfOk result (λ least. IsLeastIfAny (GoesInto map.now (Hold spans.now))
        (option_map (λ guest. Guest.number guest) least)) }
{
    let merged = merged(alloc, spans)?;
    let Some(n) = least_into(map, 0, &merged) else {
        return Ok(None);
    };
    Ok(Some(id_of(n)))
}

/// Whether the maps of two guests are apart on the host: no id of the host is reached by both. `No`
/// has the least id of the first map whose id of the host the second reaches too.
///
/// # Errors
///
/// `AllocError`: a request for memory was refused.
pub fn ids_apart<
    Guest: GuestId<HostType = Host>,
    Host: HostId<GuestType = Guest>,
    A: Allocator + Copy,
>(
    alloc: A,
    map: &IdMap<Guest, Host, A>,
    other: &IdMap<Guest, Host, A>,
) -> Result<IdAudit<Guest>, AllocError>
    ensures answer { IfOk result (AnswersLeastId (GoesInto map.now (ReachedBy other.now))
        (λ guest. Guest.number guest)) }
    ensures apart { IfOk result (λ audit. (audit ≡ Yes) ↔ AreIdsApart map.now other.now) }
{
    let ids = reached(alloc, other)?;
    let Some(least) = reaches_any(alloc, map, &ids)? else {
        return Ok(IdAudit::Yes);
    };
    Ok(IdAudit::No(least))
}
