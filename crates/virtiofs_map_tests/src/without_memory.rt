//! The calls that take no memory, under an allocator that grants none from then on and counts what
//! it is asked: it is not asked. The calls that take memory for some names alone are in
//! `refused`.

use crate::common::users_of;
use rationed::Rationed;
use std::alloc::{Allocator, Global};
use std::test::Fail;
use virtiofs_id_audit::{Astray, IdAudit, comes_back, reaches};
use virtiofs_map::Steps;
use virtiofs_map::id_types::{GuestUid, HostUid};
use virtiofs_map::soft_idmap::{Direction, IdMap};
use virtiofs_map::xattrmap::{AppliedRule, PassedName, Side, XattrMap, XattrName};

type Users<A> = IdMap<GuestUid, HostUid, A>;

/// A number, what it is on the host as a guest's and in the guest as a host's; `None` where its use
/// fails.
type Numbers = (u32, Option<u32>, Option<u32>);

const SPECIFICATIONS: &str = "map:0:1000:10|forbid-guest:20:2|squash-host:9:65534:1";

/// What `SPECIFICATIONS` make of numbers.
static MAPPED: [Numbers; 4] = [
    (0, Some(1000), Some(0)),
    (9, Some(1009), Some(65534)),
    (21, None, Some(21)),
    (1005, Some(1005), Some(5)),
];

const RULES: &str = ":map:trusted.:user.virtiofs.:";

/// A name, and the first of `RULES` that decides it on either side.
type Decided = (&'static [u8], Option<usize>, Option<usize>);

static DECIDED: [Decided; 3] = [
    (b"trusted.a", Some(0), Some(1)),
    (b"user.virtiofs.a", Some(1), Some(0)),
    (b"", Some(2), Some(2)),
];

#[test]
fn ids_are_looked_up(rt: HostRuntime) -> Result<(), Fail> {
    let heap = Rationed::new(rt.alloc(), u64::MAX);
    assert!(rt; are_looked_up(&heap)?);
    assert!(rt; heap.refused() == 0);
    Ok(())
}

fn are_looked_up(heap: &Rationed<Global>) -> Result<bool, Fail> {
    let map = users_of(heap, SPECIFICATIONS).ok_or("no map")?;
    heap.stop();
    Ok(are_mapped(&map, &MAPPED) && is_audited(&map))
}

#[test]
fn the_empty_map_is_made_and_asked(rt: HostRuntime) {
    let heap = Rationed::new(rt.alloc(), 0);
    assert!(rt; are_mapped(&Users::empty(&heap), &[(1000, Some(1000), Some(1000))]));
    assert!(rt; heap.asked() == 0);
}

#[test]
fn names_are_looked_up(rt: HostRuntime) -> Result<(), Fail> {
    let heap = Rationed::new(rt.alloc(), u64::MAX);
    let listed = listed(rt.alloc(), &heap)?;
    assert_eq!(rt; listed.as_str(), "Some(Ok([97])) Some(Ok([99])) None");
    assert!(rt; heap.refused() == 0);
    Ok(())
}

fn listed(alloc: Global, heap: &Rationed<Global>) -> Result<String, Fail> {
    let map = XattrMap::try_from(heap, RULES).ok().ok_or("no map")?;
    heap.stop();
    (are_decided(&map) && are_answered(heap, &map))
        .then_some(())
        .ok_or("a name is decided otherwise")?;
    names_of(alloc, &map)
}

/// Whether a name is denied, and another passes as it is.
fn are_answered<A: Allocator + Copy>(alloc: A, map: &XattrMap<A>) -> bool {
    let (hidden, other) = (XattrName::new(b"user.virtiofs.a"), XattrName::new(b"c"));
    let (Some(hidden), Some(other)) = (hidden, other) else {
        return false;
    };
    let denied = map.map_client_xattr(alloc, hidden);
    let passed = map.map_client_xattr(alloc, other);
    matches!(&denied, Ok(AppliedRule::Deny))
        && matches!(&passed, Ok(AppliedRule::Pass(PassedName::Borrowed(_))))
}

/// The names that a list of the host has for the guest.
fn names_of<A: Allocator>(alloc: Global, map: &XattrMap<A>) -> Result<String, Fail> {
    let mut names = map.listed_names(b"trusted.b\0user.virtiofs.a\0c");
    let (first, second) = (names.next(), names.next());
    Ok(format!(in alloc; "{first:?} {second:?} {:?}", names.next())?)
}

fn are_decided<A: Allocator>(map: &XattrMap<A>) -> bool {
    let is_whole = map.is_terminated() && map.rule_count() == 3 && map.most_added() == 14;
    let is_decided = map.decides(0) && map.decides(2) && !map.decides(3);
    is_whole && is_decided && DECIDED.iter().all(|row| is_first(map, row))
}

fn is_first<A: Allocator>(map: &XattrMap<A>, row: &Decided) -> bool {
    let (name, client, server) = *row;
    let Some(name) = XattrName::new(name) else {
        return false;
    };
    let mut steps = Steps::new();
    let first = map.first_rule(Side::Client, name, &mut steps);
    first == client && map.first_rule(Side::Server, name, &mut steps) == server
}

/// Looks up numbers on both sides, with steps and without.
fn are_mapped<A: Allocator>(map: &Users<A>, rows: &[Numbers]) -> bool {
    rows.iter().all(|row| is_mapped(map, row))
}

fn is_mapped<A: Allocator>(map: &Users<A>, row: &Numbers) -> bool {
    let (number, on_host, in_guest) = *row;
    let (guest, host, mut steps) = (GuestUid::from(number), HostUid::from(number), Steps::new());
    let counted = map.map_guest_counted(guest, &mut steps).ok();
    let counted_back = map.map_host_counted(host, &mut steps).ok();
    counted == on_host.map(HostUid::from)
        && counted_back == in_guest.map(GuestUid::from)
        && map.map_guest(guest).ok() == counted
        && map.map_host(host).ok() == counted_back
}

/// Asks a map for its pieces and about all its ids.
fn is_audited<A: Allocator>(map: &Users<A>) -> bool {
    let (guest, host) = (GuestUid::from(1000), HostUid::from(1000));
    let back = GuestUid::from(0);
    let first = map.pieces(Direction::GuestToHost).next();
    first.is_some_and(|piece| piece.last == 9)
        && comes_back(map) == IdAudit::No(Astray { guest, host, back })
        && reaches(map, HostUid::from(21), HostUid::from(30)) == Some(GuestUid::from(22))
}
