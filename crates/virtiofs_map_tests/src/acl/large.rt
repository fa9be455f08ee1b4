//! Lists of as many entries as a value of 64 KiB can have, which are sorted to find ids that merge.

use std::alloc::{AllocError, Global};
use std::test::Fail;
use virtiofs_acl::{AclError, EntryFault, EntryRoom, acl_to_host};
use virtiofs_map::id_types::{GuestGid, GuestUid, HostGid, HostUid};
use virtiofs_map::soft_idmap::IdMap;

/// The most entries that a value of 64 KiB has.
const MOST: usize = 8191;

/// A specification of users, and the first entry of the list that merges under it.
static LARGE: [(&str, Option<usize>); 3] = [
    ("map:0:100000:65536", None),
    ("squash-guest:0:65534:65536", Some(1)),
    // The last entry is user 3870, and the first is user 0.
    ("guest:3870:0:1", Some(8190)),
];

#[test]
fn as_many_entries_as_64_kib_hold_go_across(rt: HostRuntime) -> Result<(), Fail> {
    let fault = EntryFault::Merges;
    for &(spec, merging) in &LARGE {
        let mut value = users_list(rt.alloc())?;
        let told = fault_of(rt.alloc(), spec, &mut value, MOST)?;
        let wanted = merging.map(|entry| AclError::Entry { entry, fault });
        assert!(rt; told == wanted, "under {spec}");
    }
    Ok(())
}

#[test]
fn room_for_fewer_entries_is_refused(rt: HostRuntime) -> Result<(), Fail> {
    let mut value = users_list(rt.alloc())?;
    let told = fault_of(rt.alloc(), "guest:0:0:1", &mut value, MOST - 1)?;
    assert!(rt; told == Some(AclError::Room { needed: MOST }));
    // With half an entry more the value has 64 KiB.
    value.extend_from_slice(&[2, 0, 7, 0])?;
    let told = fault_of(rt.alloc(), "guest:0:0:1", &mut value, 0)?;
    assert!(rt; value.len() == 65536 && told == Some(AclError::Length));
    Ok(())
}

/// The fault of a list under this specification of users, with room for so many entries.
fn fault_of(
    alloc: Global,
    spec: &str,
    value: &mut [u8],
    room: usize,
) -> Result<Option<AclError>, Fail> {
    let users: IdMap<GuestUid, HostUid> = IdMap::from_specs(alloc, &[spec])?;
    let groups: IdMap<GuestGid, HostGid> = IdMap::empty(alloc);
    let mut entries = vec![in alloc; EntryRoom::new(); room]?;
    Ok(acl_to_host(&users, &groups, value, entries.as_mut_slice()).err())
}

/// A list of users in no order, with ids from 0 to 8190, as a value of 65,532 bytes.
fn users_list(alloc: Global) -> Result<Vec<u8>, AllocError> {
    let mut value = Vec::new(alloc);
    value.extend_from_slice(&[2, 0, 0, 0])?;
    for k in 0..8191_u16 {
        let id = u32::from(k) * 4321 % 8191;
        let [low, high, _, _] = id.to_le_bytes();
        value.extend_from_slice(&[2, 0, 7, 0, low, high, 0, 0])?;
    }
    Ok(value)
}
