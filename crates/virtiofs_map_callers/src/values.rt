//! How a daemon changes the ids in a value that the guest sets.
ghost use Rattle.std.specs.Prelude.{◌≡◌, false};

use virtiofs_acl::{EntryRoom, ValueKind, acl_to_host, capability_to_host, carries_ids};
use virtiofs_map::id_types::{GuestGid, GuestUid, HostGid, HostUid};
use virtiofs_map::soft_idmap::IdMap;
use virtiofs_map::xattrmap::XattrName;

/// Converts, in place, a value that the guest sets into the value for the host. `false`: the value
/// is rejected, and is unchanged.
pub fn set_by_guest(
    users: &IdMap<GuestUid, HostUid>,
    groups: &IdMap<GuestGid, HostGid>,
    name: XattrName<'_>,
    value: &mut [u8],
    room: &mut [EntryRoom],
) -> bool
    ensures { result ≡ false → value.new ≡ value.old }
{
    match carries_ids(name) {
        Some(ValueKind::Acl) => acl_to_host(users, groups, value, room).is_ok(),
        Some(ValueKind::Capability) => capability_to_host(users, value).is_ok(),
        None => true,
    }
}
