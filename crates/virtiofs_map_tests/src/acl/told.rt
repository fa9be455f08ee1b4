//! What the calls make of values. Those on images are what these call.

use crate::common::{map_of, users_of};
use std::alloc::{AllocError, Global};
use std::process::Abort;
use std::test::Fail;
use virtiofs_acl::{
    AclError, CapabilityError, EntryRoom, acl_to_guest, acl_to_host, capability_to_guest,
    capability_to_guest_in_revision_3, capability_to_host, capability_to_host_in_revision_3,
};
use virtiofs_map::id_types::{GuestGid, GuestUid, HostGid, HostUid};
use virtiofs_map::soft_idmap::Direction::{self, GuestToHost, HostToGuest};
use virtiofs_map::soft_idmap::IdMap;

/// The specifications under which the values of `by_linux` are pairs.
pub(super) const USERS: &str = "map:0:100000:65536";

const GROUPS: &str = "map:0:200000:65536";

/// The bytes of some words of four bytes, in their order.
pub(super) fn value_of(alloc: Global, words: &[u32]) -> Result<Vec<u8>, AllocError> {
    let mut value = Vec::new(alloc);
    for word in words {
        value.extend_from_slice(&word.to_be_bytes())?;
    }
    Ok(value)
}

/// Sees that a list becomes another.
pub(super) fn check_list(
    rt: &impl Abort,
    alloc: Global,
    direction: Direction,
    from: &[u8],
    to: &[u8],
) -> Result<(), Fail> {
    let users = users_of(alloc, USERS).ok_or("no map")?;
    let mut value = from.to_vec(alloc)?;
    let told = list_by(alloc, &users, direction, &mut value)?;
    assert!(rt; value.as_slice() == to && told.is_none(), "{from:?}");
    Ok(())
}

fn list_by(
    alloc: Global,
    users: &IdMap<GuestUid, HostUid>,
    direction: Direction,
    value: &mut [u8],
) -> Result<Option<AclError>, Fail> {
    let groups: IdMap<GuestGid, HostGid> = map_of(alloc, GROUPS).ok_or("no map")?;
    let mut room = [EntryRoom::new(); 16];
    let done = match direction {
        GuestToHost => acl_to_host(users, &groups, value, &mut room),
        HostToGuest => acl_to_guest(users, &groups, value, &mut room),
    };
    Ok(done.err())
}

/// Sees that a capability becomes another, or stays where it is refused.
pub(super) fn check_capability(
    rt: &impl Abort,
    alloc: Global,
    users: &str,
    direction: Direction,
    from: &[u8],
    to: &[u8],
    refusal: Option<CapabilityError>,
) -> Result<(), Fail> {
    let map = users_of(alloc, users).ok_or("no map")?;
    let mut value = from.to_vec(alloc)?;
    let done = match direction {
        GuestToHost => capability_to_host(&map, &mut value),
        HostToGuest => capability_to_guest(&map, &mut value),
    };
    assert!(rt; value.as_slice() == to && done.err() == refusal, "{from:?}");
    Ok(())
}

/// Sees that a capability is written in revision 3 as another.
pub(super) fn check_written(
    rt: &impl Abort,
    alloc: Global,
    direction: Direction,
    from: &[u8],
    to: &[u8],
) -> Result<(), Fail> {
    let map = users_of(alloc, USERS).ok_or("no map")?;
    let mut written = [255; 24];
    let done = match direction {
        GuestToHost => capability_to_host_in_revision_3(&map, from, &mut written),
        HostToGuest => capability_to_guest_in_revision_3(&map, from, &mut written),
    };
    assert!(rt; written.as_slice() == to && done.is_ok(), "{from:?}");
    Ok(())
}
