//! Values of attributes that hold ids: as Linux writes them, and large. `tests/embedding/values.c` has
//! values that are refused, each with its fault.

mod by_linux;
mod large;
mod told;

use crate::common::users_of;
use by_linux::{CAPABILITIES, LISTS, REVISION_2};
use std::alloc::Global;
use std::test::Fail;
use told::{USERS, check_capability, check_list, check_written, value_of};
use virtiofs_acl::{AclError, CapabilityError, EntryFault, EntryRoom, ValueKind, carries_ids};
use virtiofs_map::id_types::{GuestGid, HostGid};
use virtiofs_map::soft_idmap::Direction::{GuestToHost, HostToGuest};
use virtiofs_map::soft_idmap::IdMap;
use virtiofs_map::xattrmap::XattrName;
use virtiofs_map_callers::values::set_by_guest;

/// Names, and which ids their values hold.
static NAMES: [(&[u8], Option<ValueKind>); 5] = [
    (b"system.posix_acl_access", Some(ValueKind::Acl)),
    (b"system.posix_acl_default", Some(ValueKind::Acl)),
    (b"security.capability", Some(ValueKind::Capability)),
    (b"user.security.capability", None),
    (b"", None),
];

/// Specifications of users, and why a capability without a field for root does not go across.
static ROOTS: [(&str, Option<CapabilityError>); 4] = [
    ("", None),
    ("map:1:100001:65535", None),
    ("map:0:100000:65536", Some(CapabilityError::RootMoves)),
    ("forbid-guest:0:1", Some(CapabilityError::Forbidden)),
];

/// A capability, and the same in revision 3 with root 100000: revision 1 has one word for each set.
static WITH_ROOT: [(&[u32], &[u32]); 2] = [
    (
        &[0x01000002, 0x00040000, 0, 0, 0],
        &[0x01000003, 0x00040000, 0, 0, 0, 0xa0860100],
    ),
    (
        &[0x01000001, 0x00040000, 0x02000000],
        &[0x01000003, 0x00040000, 0x02000000, 0, 0, 0xa0860100],
    ),
];

#[test]
fn tells_which_values_hold_ids(rt: HostRuntime) -> Result<(), Fail> {
    for &(bytes, wanted) in &NAMES {
        let name = XattrName::new(bytes).ok_or("a name holds a zero")?;
        assert!(rt; carries_ids(name) == wanted, "of {bytes:?}");
    }
    Ok(())
}

#[test]
fn lists_become_what_linux_writes_for_the_other_ids(rt: HostRuntime) -> Result<(), Fail> {
    let alloc = rt.alloc();
    for &(guest, host) in &LISTS {
        let (guest, host) = (value_of(alloc, guest)?, value_of(alloc, host)?);
        check_list(&rt, alloc, GuestToHost, &guest, &host)?;
        check_list(&rt, alloc, HostToGuest, &host, &guest)?;
    }
    Ok(())
}

#[test]
fn capabilities_become_what_linux_writes_for_the_other_root(rt: HostRuntime) -> Result<(), Fail> {
    let (alloc, users) = (rt.alloc(), USERS);
    for &(guest, host) in &CAPABILITIES {
        let (guest, host) = (value_of(alloc, guest)?, value_of(alloc, host)?);
        check_capability(&rt, alloc, users, GuestToHost, &guest, &host, None)?;
        check_capability(&rt, alloc, users, HostToGuest, &host, &guest, None)?;
        check_written(&rt, alloc, GuestToHost, &guest, &host)?;
        check_written(&rt, alloc, HostToGuest, &host, &guest)?;
    }
    Ok(())
}

#[test]
fn revision_2_goes_across_where_root_stays(rt: HostRuntime) -> Result<(), Fail> {
    let alloc = rt.alloc();
    for words in REVISION_2 {
        let value = value_of(alloc, words)?;
        for &(users, refusal) in &ROOTS {
            check_capability(&rt, alloc, users, GuestToHost, &value, &value, refusal)?;
        }
    }
    Ok(())
}

#[test]
fn writes_the_same_in_revision_3(rt: HostRuntime) -> Result<(), Fail> {
    let alloc = rt.alloc();
    for &(from, to) in &WITH_ROOT {
        let (from, to) = (value_of(alloc, from)?, value_of(alloc, to)?);
        check_written(&rt, alloc, GuestToHost, &from, &to)?;
    }
    Ok(())
}

#[test]
fn prints_faults(rt: HostRuntime) -> Result<(), Fail> {
    let (entry, fault) = (3, EntryFault::Merges);
    let entry = AclError::Entry { entry, fault };
    let (list, root) = (AclError::Room { needed: 8 }, CapabilityError::RootMoves);
    let text = format!(in rt.alloc(); "{entry}; {list}; {root}")?;
    assert_eq!(rt; text.as_str(), SAID);
    Ok(())
}

const SAID: &str = "entry 3: the id would become that of an earlier entry; there are 8 entries; \
                    the revision has no id of root";

#[test]
fn sets_values_of_the_guest(rt: HostRuntime) -> Result<(), Fail> {
    let (alloc, (guest, host)) = (rt.alloc(), LISTS[0]);
    let told = set_on_host(alloc, b"system.posix_acl_access", guest)?;
    assert!(rt; told == Some(value_of(alloc, host)?));
    let told = set_on_host(alloc, b"user.note", guest)?;
    assert!(rt; told == Some(value_of(alloc, guest)?));
    let told = set_on_host(alloc, b"security.capability", guest)?;
    assert!(rt; told.is_none());
    Ok(())
}

/// What becomes of a value of that name; `None` where it is refused.
fn set_on_host(alloc: Global, name: &[u8], words: &[u32]) -> Result<Option<Vec<u8>>, Fail> {
    let name = XattrName::new(name).ok_or("a name holds a zero")?;
    let users = users_of(alloc, USERS).ok_or("no map")?;
    let groups: IdMap<GuestGid, HostGid> = IdMap::empty(alloc);
    let mut value = value_of(alloc, words)?;
    let mut room = [EntryRoom::new(); 8];
    let is_set = set_by_guest(&users, &groups, name, value.as_mut_slice(), &mut room);
    Ok(is_set.then_some(value))
}
